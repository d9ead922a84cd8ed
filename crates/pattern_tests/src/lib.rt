// The tests that a walk over a pattern makes in Check: literals and constants, the length of a slice, and the variant of an enum. Each stops at the
// first refusal and leaves the body as it then is.
#![tactic(auto)]

pub mod consts; // consts.rt: literals and constants
pub mod discriminants; // discriminants.rt: the variant of an enum
pub mod lengths; // lengths.rt: the length of a slice
