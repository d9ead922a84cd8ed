// A type, an operand or a pattern taken as one of its kinds is defined in specs/.
#![tactic(auto)]
