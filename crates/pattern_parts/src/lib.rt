// What a walk over a pattern does besides testing: the type at a place is looked at, and bindings are filled.
#![tactic(auto)]

pub mod adts; // adts.rt: the type at a place, as tuples, references and variants need it
pub mod bindings; // bindings.rt: what bindings are filled with
