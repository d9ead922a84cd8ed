// Parts of document 01's listing, written into a lent buffer: places, and the lines of locals.
#![tactic(auto)]

pub mod locals; // locals.rt: locals and their types
pub mod places; // places.rt: places
pub mod rows; // rows.rt: numbers of several words of a row
