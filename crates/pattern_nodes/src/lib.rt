// The lowering of a pattern by its row of the image is defined in specs/, and that it is the lowering of its tree is proved in proofs/.
#![tactic(auto)]
