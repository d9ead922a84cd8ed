// Literals of 16 bytes or fewer in every text's tree: definitions and theorems only. Their meaning stands in specs/.
#![tactic(auto)]
