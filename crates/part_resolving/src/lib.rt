// What becomes of a node with a name that is a part: a field of a record, the rest of a slice.
#![tactic(auto)]

pub mod fields; // fields.rt: the fields of a record
pub mod rests; // rests.rt: the rest of a slice
