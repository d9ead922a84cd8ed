// Room by document 01's counts is defined in specs/, and that it suffices is proved of the lowering in proofs/.
#![tactic(auto)]
