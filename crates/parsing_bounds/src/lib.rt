// What the parser notes and what waits in it are at most as many as the bytes that it has read: see proofs/.
#![tactic(auto)]
