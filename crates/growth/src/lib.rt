// How the lowering of a pattern grows a body is stated in specs/, and proved of every accepted walk in proofs/.
#![tactic(auto)]
