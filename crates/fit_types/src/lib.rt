// The part of the fit test that decides the clauses on types, arguments, literals and constants.
#![tactic(auto)]

pub mod walk; // walk.rt: the test of a pattern, and of the patterns below it
