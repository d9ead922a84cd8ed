// What is made of a pattern's nodes, one after another with a stack: see specs/ and proofs/.
#![tactic(auto)]
