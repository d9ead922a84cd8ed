// What a token of a text does, whatever stands behind the bytes of names in use: see specs/ and proofs/.
#![tactic(auto)]

use parsing_moves::NodeMove;

// What is done, and how many bytes of names are in use then.
#[derive(Clone, Copy)]
pub struct TokenMove {
    pub made: NodeMove,
    pub named: usize,
}
