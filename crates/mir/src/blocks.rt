// Blocks and their terminators. Zeros stand above the count, and a row of zeros is an open block: a new block is a count, and no word is stored.
ghost use Rattle.std.specs.Prelude.{◌≡◌, ◌*◌, ◌<◌, length};
ghost use Rattle.row_tables.specs.Rows.{row_at, stored};
ghost use Rattle.mir.specs.Blocks.{term_row, is_open, new_block, block_words, block_width};

use super::{BLOCK_WIDTH, BasicBlockId, Counts};
use place::LocalId;
use row_tables::store_row;

#[derive(Clone, Copy)]
pub enum Terminator {
    // None yet.
    Open,
    Goto(BasicBlockId),
    // By a local's value: the low and the high half of the value that is tested, the block where it is that, and the block where it is not.
    Switch(LocalId, u64, u64, BasicBlockId, BasicBlockId),
    Unreachable,
    // Drops a local, and goes on.
    Drop(LocalId, BasicBlockId),
}

// A new block, open. None where the limit is passed.
pub fn new_basic_block(counts: Counts) -> Option<(Counts, BasicBlockId)>
    ensures { result ≡ new_block counts }
{
    let n = counts.blocks;
    if 512 <= n {
        return None;
    }
    Some((
        Counts {
            blocks: n + 1,
            ..counts
        },
        BasicBlockId(n),
    ))
}

// The row of a switch.
fn switch_row(
    local: LocalId,
    low: u64,
    high: u64,
    then: BasicBlockId,
    other: BasicBlockId,
) -> [u16; 12]
    ensures { result ≡ term_row (Terminator.Switch local low high then other) }
{
    [
        2,
        local.0,
        then.0,
        other.0,
        (low % 65536) as u16,
        (low / 65536 % 65536) as u16,
        (low / 4294967296 % 65536) as u16,
        (low / 281474976710656 % 65536) as u16,
        (high % 65536) as u16,
        (high / 65536 % 65536) as u16,
        (high / 4294967296 % 65536) as u16,
        (high / 281474976710656 % 65536) as u16,
    ]
}

// The row of a terminator.
fn term_row(terminator: Terminator) -> [u16; 12]
    ensures { result ≡ term_row terminator }
{
    match terminator {
        Terminator::Open => [0u16; 12],
        Terminator::Goto(b) => [1, 0, b.0, 0, 0, 0, 0, 0, 0, 0, 0, 0],
        Terminator::Switch(local, low, high, then, other) => switch_row(
            local, low, high, then, other,
        ),
        Terminator::Unreachable => [3, 0, 0, 0, 0, 0, 0, 0, 0, 0, 0, 0],
        Terminator::Drop(local, b) => [4, local.0, b.0, 0, 0, 0, 0, 0, 0, 0, 0, 0],
    }
}

// The terminator of a block, in place of what it had.
pub fn set_terminator(blocks: &mut [u16], source: BasicBlockId, terminator: Terminator)
    requires { (length blocks.old ≡ block_words) × (source.0 < 512) }
    ensures { blocks.new ≡ stored blocks.old (block_width * source.0) (term_row terminator) }
{
    let row = term_row(terminator);
    store_row(blocks, BLOCK_WIDTH * (source.0 as usize), &row);
}

pub fn set_goto(blocks: &mut [u16], source: BasicBlockId, target: BasicBlockId)
    requires { (length blocks.old ≡ block_words) × (source.0 < 512) }
    ensures { blocks.new ≡ stored blocks.old (block_width * source.0) (term_row (Terminator.Goto target)) }
{
    set_terminator(blocks, source, Terminator::Goto(target));
}

// A block lacks a terminator.
pub fn is_unterminated(blocks: &[u16], source: BasicBlockId) -> bool
    requires { (length blocks.now ≡ block_words) × (source.0 < 512) }
    ensures { result ≡ is_open (row_at block_width blocks.now source.0) }
{
    blocks[BLOCK_WIDTH * (source.0 as usize)] == 0
}
