// The image that a text is read as is a string of bytes: see specs/ and proofs/.
#![tactic(auto)]
