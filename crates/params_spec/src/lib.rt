// `lower_params_and_bindings`: what it is handed, what it answers and its definition stand in specs/.
#![tactic(auto)]
