// Whether the rows of a body may be handed in: those in use name nothing that is missing.
#![tactic(auto)]

pub mod rows; // rows.rt: the rows of locals, scopes and entries, and of blocks; the elements of a place
