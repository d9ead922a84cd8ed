// The nodes of a pattern's text, and what is made of them, as rows of words in lent tables.
#![tactic(auto)]

// A text has at most this many bytes, and a node for each of them at most.
pub const TEXT_BYTES: usize = 16384;

pub const NODE_WIDTH: usize = 7;

pub const NODE_WORDS: usize = NODE_WIDTH * TEXT_BYTES;

pub const MAKING_WIDTH: usize = 12;

pub const MAKING_WORDS: usize = MAKING_WIDTH * TEXT_BYTES;

// A node: its kind, where it begins, how many parts it has, and what its kind says besides. A name's bytes stand from `from` to `to` among the
// names that were read, an integer's digits in the text; a char is in `from` and, its upper half, in `to`.
#[derive(Clone, Copy)]
pub struct NodeRow {
    pub kind: u16,
    pub at: u16,
    pub parts: u16,
    pub more: u16,
    pub spot: u16,
    pub from: u16,
    pub to: u16,
}

// What is made of a node: see specs/Makings.antt for the words of each kind.
#[derive(Clone, Copy)]
pub struct MakingRow {
    pub kind: u16,
    pub parts: u16,
    pub ty: u16,
    pub derefs: u16,
    pub a: u16,
    pub b: u16,
    pub c: u16,
    pub from: u16,
    pub to: u16,
    pub element: u16,
    pub many: u16,
    pub copy: u16,
}
