// Where tokens stand in a text: see proofs/.
#![tactic(auto)]
