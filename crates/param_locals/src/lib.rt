// The locals of parameters: what a call is handed is looked at, and the locals are made.
#![tactic(auto)]

pub mod declaring; // declaring.rt: the locals of self, of the parameters and of the other bindings
pub mod lists; // lists.rt: whether what the call is handed is taken
