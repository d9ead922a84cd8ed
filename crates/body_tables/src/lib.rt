// A body and its scopes in one table that the caller lends: five tables, one behind the other, and a leaf for each function on a table, which is handed its part.
#![tactic(auto)]

pub mod blocks; // blocks.rt: terminators
pub mod locals; // locals.rt: new locals, and the words of their types
pub mod statements; // statements.rt: live and dead marks

use mir::{BLOCK_WORDS, STATEMENT_WORDS};

// Where each table begins, that of the blocks at 0, and how many words there are: 512 blocks, 1,024 statements, 512 locals, 32 scopes, 1,024 entries.
pub const STATEMENTS: usize = BLOCK_WORDS;

pub const LOCALS: usize = STATEMENTS + STATEMENT_WORDS;

pub const SCOPES: usize = LOCALS + 512;

pub const ENTRIES: usize = SCOPES + 32;

pub const BODY_WORDS: usize = ENTRIES + 1024;
