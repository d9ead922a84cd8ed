// The commands of a stored script: how one is read, and the words that it sets or hands in.
#![tactic(auto)]

pub mod call_words; // call_words.rt: what is handed in besides the body
pub mod words; // words.rt: the words of the tables that are set

use image::word_at;
use mir::BasicBlockId;
use std::io::Read;

// 0 temp (word a, block b), 1 merge_blocks (a, b), 2 push_drop_scope, 3 pop_assume_dropped, 4 pop_and_drop (block a), 5 drop_until_scope (index a, block b),
// 6 a word is set: word b of the table a to c, or of table 5 the count b.
#[derive(Clone, Copy)]
pub struct Command {
    pub op: u16,
    pub a: u16,
    pub b: u16,
    pub c: u16,
}

// The next command. Where there is none it sets nothing: there is no table 65535.
pub fn next_command(input: &mut impl Read) -> Command {
    let mut words = [0u8; 8];
    if input.read_exact(&mut words).is_err() {
        return Command {
            op: 6,
            a: 65535,
            b: 0,
            c: 0,
        };
    }
    Command {
        op: word_at(&words, 0),
        a: word_at(&words, 2),
        b: word_at(&words, 4),
        c: word_at(&words, 6),
    }
}

// A block's number; 65535 is none.
pub fn opt_block(word: u16) -> Option<BasicBlockId> {
    if word == 65535 {
        return None;
    }
    Some(BasicBlockId(word))
}
