// What every public call gives and promises is defined in specs/, once for the calls on a body, on patterns and on parameters; laws of it stand in proofs/.
#![tactic(auto)]
