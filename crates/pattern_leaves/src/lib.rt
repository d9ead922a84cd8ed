// The patterns that have no subpattern, and what the others do besides walking their subpatterns.
#![tactic(auto)]

pub mod kinds; // kinds.rt: patterns without subpatterns, by their kinds
pub mod modes; // modes.rt: what a pattern with subpatterns does in Check, and beyond it
