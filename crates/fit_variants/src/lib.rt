// What a path names: a variant of an enum whose discriminants differ, or a constant.
#![tactic(auto)]

pub mod discriminants; // discriminants.rt: the discriminants of an enum differ
pub mod paths; // paths.rt: what a path names
