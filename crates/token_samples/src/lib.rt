// Texts whose tokens are computed by the definitions: see proofs/.
#![tactic(auto)]
