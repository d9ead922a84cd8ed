// What the parser does at a mark behind what is held.
#![tactic(auto)]

pub mod behind;
