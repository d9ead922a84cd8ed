// An image that is a sheet with more rows reads back as the sheet's rows and those: see specs/ and proofs/.
#![tactic(auto)]
