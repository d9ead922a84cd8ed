// What patterns and bodies mean is defined in specs/, and that the lowering keeps it is proved in proofs/.
#![tactic(auto)]
