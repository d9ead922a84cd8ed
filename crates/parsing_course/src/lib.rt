// What the parser has read of a text between two tokens, and that it stops at the last one: see proofs/.
#![tactic(auto)]
