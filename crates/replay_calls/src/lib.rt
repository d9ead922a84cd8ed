// The calls on a body and its scopes that a stored script makes, and the line that each prints.
#![tactic(auto)]

mod calls; // calls.rt: each call
pub mod commands; // commands.rt: a command, and the line that it prints
