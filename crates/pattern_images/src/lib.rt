// The image of a pattern's nodes: see specs/ and proofs/.
#![tactic(auto)]
