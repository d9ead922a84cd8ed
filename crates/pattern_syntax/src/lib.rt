// Patterns as they are written, brought down to nodes: see specs/ and proofs/.
#![tactic(auto)]
