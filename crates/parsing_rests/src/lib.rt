// What a list's rest, a range without an upper bound and `mut` do on the tables.
#![tactic(auto)]

pub mod ranges;
pub mod resting;
