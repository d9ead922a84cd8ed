// The grammar of patterns and the machine that reads it: see specs/ and proofs/.
#![tactic(auto)]
