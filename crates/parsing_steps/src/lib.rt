// The parser's moves on lent tables: the stack of what waits, and the nodes that have closed.
#![tactic(auto)]

pub mod ending;
pub mod settling;

use parsing_machine::ReadState;
use parsing_moves::HeldRow;

// How many rows wait and have closed.
#[derive(Clone, Copy)]
pub struct Heights {
    pub depth: usize,
    pub rows: usize,
}

// The parser between two tokens.
#[derive(Clone, Copy)]
pub struct ParseState {
    pub state: ReadState,
    pub held: HeldRow,
    pub depth: usize,
    pub rows: usize,
}

// It goes on, or the text has ended with so many nodes, or it has failed.
#[derive(Clone, Copy)]
pub enum ParseStep {
    Going(ParseState),
    Ended(usize),
    Halted(u16),
}
