// A call of `pattern_match` and what it hands out are defined in specs/; that a call which is accepted is one of the definition's lowerings is proved in proofs/.
#![tactic(auto)]
