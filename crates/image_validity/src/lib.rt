// The image of a sheet and what a text adds to it is valid: see specs/ and proofs/.
#![tactic(auto)]
