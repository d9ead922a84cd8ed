// The rules on the rows of patterns: each test answers what its definition says.
#![tactic(auto)]

pub mod operands; // operands.rt: what a pattern names in the list and the data
pub mod patterns; // patterns.rt: the rows of patterns
