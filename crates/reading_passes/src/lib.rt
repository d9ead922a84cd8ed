// Reading a text in passes over rows, and that it is reading its tree: see specs/ and proofs/.
#![tactic(auto)]
