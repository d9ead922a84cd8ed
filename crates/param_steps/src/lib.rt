// What is counted and kept when parameters are lowered, besides the walk over their patterns.
#![tactic(auto)]

pub mod numbering; // numbering.rt: the numbers of the parameters' locals
pub mod saving; // saving.rt: the bindings' locals are kept aside, and put back
