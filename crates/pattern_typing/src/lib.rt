// The types, binding modes and names of a pattern's nodes.
#![tactic(auto)]
