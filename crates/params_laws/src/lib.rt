// What the functions of `lower_params_and_bindings` above the walk over patterns ask for and promise is defined in specs/; for each way through them a law is proved in
// proofs/.
#![tactic(auto)]
