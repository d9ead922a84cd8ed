// The public calls on patterns. What a call gives for every image, body and number, and what it promises, is defined in specs/.
#![tactic(auto)]
