// What the clause that nothing refused is reached asks of a pattern itself, and what is found where patterns are reached.
#![tactic(auto)]

pub mod own; // own.rt: what a pattern's row says of the pattern itself
pub mod parts; // parts.rt: what a type's row and the words of a pattern's row say

// What is found where patterns are reached: one is refused, or none is, and they cannot fail, or can.
#[derive(Clone, Copy)]
pub enum Reached {
    Refused,
    Sure,
    CanFail,
}
