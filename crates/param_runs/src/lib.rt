// What the lowering of a list of parameters does to a body is stated in specs/, and proved of `lower_params_and_bindings` in proofs/.
#![tactic(auto)]
