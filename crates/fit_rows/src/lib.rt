// Patterns in a row, as the clause on bindings asks for them: what each binds itself, and whether a binding stands in a row.
#![tactic(auto)]

pub mod nodes; // nodes.rt: a pattern's own binding, and its row of subpatterns
pub mod found; // found.rt: whether a binding stands in a row of patterns
