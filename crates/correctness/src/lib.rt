// Demand 2 is stated in specs/, and proved in proofs/: the blocks of a lowered pattern mean what the Reference says.
#![tactic(auto)]
