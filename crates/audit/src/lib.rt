// The auditor's page: proofs/Audit.antt states the demands as theorems, and proves each by a citation.
#![tactic(auto)]
