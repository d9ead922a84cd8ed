// Texts whose trees are computed by the definitions: see proofs/.
#![tactic(auto)]
