// Texts whose images are computed by the definitions: see proofs/.
#![tactic(auto)]
