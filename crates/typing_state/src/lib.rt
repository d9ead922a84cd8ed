// What the pass down over the nodes keeps from row to row: the parents whose parts are not all read, and the first position that is refused.
#![tactic(auto)]

pub mod refused; // refused.rt: the first of two positions
pub mod stack; // stack.rt: the parents, the last one on top
pub mod tables; // tables.rt: their rows
