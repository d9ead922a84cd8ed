// The state of a lowering is defined in specs/, and its laws are proved in proofs/.
#![tactic(auto)]
