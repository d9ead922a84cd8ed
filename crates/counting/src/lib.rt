// Document 01's counts are defined in specs/, and proved of the lowering in proofs/.
#![tactic(auto)]
