// A body's blocks as records: the record of a terminator, of a block's row, and a record read as a terminator, all by value.
#![tactic(auto)]

ghost use Rattle.std.specs.Prelude.{◌≡◌, ◌+◌, ◌≤◌, ◌<◌, length};
ghost use Rattle.mir.specs.Blocks.{block_words};
ghost use Rattle.views.specs.Views.{four_words_at};
ghost use Rattle.block_records.specs.Records.{bare, record_of, terminator_in, record_at};

use mir::blocks::Terminator;
use mir::{BLOCK_WIDTH, BasicBlockId};
use place::LocalId;

// A block's terminator: its kind and numbers, as the table of blocks has them, and the low and the high half of the value that a switch tests.
#[derive(Clone, Copy)]
pub struct Block {
    pub kind: u16,
    pub local: LocalId,
    pub then: BasicBlockId,
    pub other: BasicBlockId,
    pub low: u64,
    pub high: u64,
}

// The number of four words, the lowest first.
fn four_words(words: &[u16], k: usize) -> u64
    requires { k + 4 ≤ length words.now }
    ensures { result ≡ four_words_at words.now k }
{
    let a = words[k] as u64;
    let b = words[k + 1] as u64;
    let c = words[k + 2] as u64;
    let d = words[k + 3] as u64;
    a + 65536 * b + 4294967296 * c + 281474976710656 * d
}

// The row of a block as a record.
pub fn block_at(blocks: &[u16], b: BasicBlockId) -> Block
    requires { (length blocks.now ≡ block_words) × (b.0 < 512) }
    ensures { result ≡ record_at blocks.now b.0 }
{
    let at = BLOCK_WIDTH * (b.0 as usize);
    Block {
        kind: blocks[at],
        local: LocalId(blocks[at + 1]),
        then: BasicBlockId(blocks[at + 2]),
        other: BasicBlockId(blocks[at + 3]),
        low: four_words(blocks, at + 4),
        high: four_words(blocks, at + 8),
    }
}

// A record that tests no value.
fn bare_block(kind: u16, local: LocalId, then: BasicBlockId) -> Block
    ensures { result ≡ bare kind local then }
{
    Block {
        kind: kind,
        local: local,
        then: then,
        other: BasicBlockId(0),
        low: 0,
        high: 0,
    }
}

// The record of a terminator.
pub fn block_of(terminator: Terminator) -> Block
    ensures { result ≡ record_of terminator }
{
    match terminator {
        Terminator::Open => bare_block(0, LocalId(0), BasicBlockId(0)),
        Terminator::Goto(b) => bare_block(1, LocalId(0), b),
        Terminator::Switch(local, low, high, then, other) => Block {
            kind: 2,
            local: local,
            then: then,
            other: other,
            low: low,
            high: high,
        },
        Terminator::Unreachable => bare_block(3, LocalId(0), BasicBlockId(0)),
        Terminator::Drop(local, b) => bare_block(4, local, b),
    }
}

// The terminator of a record.
pub fn terminator_of(block: Block) -> Terminator
    ensures { result ≡ terminator_in block }
{
    let local = block.local;
    let then = block.then;
    let other = block.other;
    let kind = block.kind;
    match kind {
        1 => Terminator::Goto(then),
        2 => Terminator::Switch(local, block.low, block.high, then, other),
        3 => Terminator::Unreachable,
        4 => Terminator::Drop(local, then),
        _ => Terminator::Open,
    }
}

// So many records as a body may have blocks.
pub fn blank_records() -> [Block; 512]
    ensures { length result ≡ 512 }
{
    let none = bare_block(0, LocalId(0), BasicBlockId(0));
    [none; 512]
}
