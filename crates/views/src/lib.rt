// How a body's rows are read as terminators and statements is defined in specs/, and that it reads back what was built is proved in proofs/.
#![tactic(auto)]
