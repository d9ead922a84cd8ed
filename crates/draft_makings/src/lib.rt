// What a row of makings makes of a draft: see specs/ and proofs/.
#![tactic(auto)]
