// Holds theorems alone: the definitions, computed on the samples (proofs/Samples.antt) and on what they stand for (proofs/Corners.antt, proofs/Places.antt).
#![tactic(auto)]
