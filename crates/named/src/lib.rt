// Which locals a body names is stated in specs/, and that the lowering of a pattern names none before it is made is proved in proofs/.
#![tactic(auto)]
