// Why a fitting pattern may be refused is defined in specs/, and proved of the lowering in proofs/.
#![tactic(auto)]
