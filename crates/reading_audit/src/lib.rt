// The auditor's page on patterns as text: see specs/ and proofs/.
#![tactic(auto)]
