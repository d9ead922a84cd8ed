// The body of MIR blocks, in tables that the caller lends.
#![tactic(auto)]

pub mod blocks; // blocks.rt: blocks and their terminators
pub mod locals; // locals.rt: locals and their types
pub mod rvalues; // rvalues.rt: what statements hold
pub mod scopes; // scopes.rt: drop scopes and their entries

// The words of a block's row, and of a statement's.
pub const BLOCK_WIDTH: usize = 12;

pub const STATEMENT_WIDTH: usize = 49;

// The words of 512 blocks, and of 1,024 statements.
pub const BLOCK_WORDS: usize = BLOCK_WIDTH * 512;

pub const STATEMENT_WORDS: usize = STATEMENT_WIDTH * 1024;

// A block's number.
#[derive(Clone, Copy)]
pub struct BasicBlockId(pub u16);

// How many rows of each table of a body and its scopes are in use: they go into each builder call by value, and come out of it.
#[derive(Clone, Copy)]
pub struct Counts {
    pub blocks: u16,
    pub statements: u16,
    pub locals: u16,
    pub scopes: u16,
    pub entries: u16,
}
