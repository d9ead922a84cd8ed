// The clauses of the fit test on literals and constants.
#![tactic(auto)]

pub mod integers; // integers.rt: an integer in the range of an integer type
pub mod operands; // operands.rt: literals, constants and range ends
