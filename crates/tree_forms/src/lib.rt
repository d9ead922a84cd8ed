// Every tree that a text has is formed: see proofs/.
#![tactic(auto)]
