// What the functions of the walk over patterns ask for and promise is defined in specs/; for each way through them a law is proved in proofs/.
#![tactic(auto)]
