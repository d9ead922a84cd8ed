// The rules on the rows of an image's tables, over all rows.
#![tactic(auto)]

pub mod patterns; // patterns.rt: the rows of patterns, and the numbers of their subpatterns
pub mod tables_hold; // tables_hold.rt: the rows of types, variants and bindings
