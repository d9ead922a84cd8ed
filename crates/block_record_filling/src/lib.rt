// A body's blocks as records, from its table of words: a lent slice of records is filled, where it has room for them. `records_of`
// lends a slice of its own and answers it by value.
#![tactic(auto)]

ghost use Rattle.std.specs.Prelude.{◌≡◌, ◌≤◌, map, length, take};
ghost use Rattle.mir.specs.Blocks.{block_words};
ghost use Rattle.block_records.specs.Records.{terminator_in, terminators_of};
ghost use Rattle.block_record_filling.specs.Fillings.{filled, fits, filled_where, Shown};

use block_records::{Block, blank_records, block_at};
use mir::{BLOCK_WORDS, BasicBlockId};

// A table of so many words is one of blocks, and its blocks are no more than 512 and than there are records.
#[tactic(auto, unfolding(crate::specs::Fillings::fits))]
fn records_fit(words: usize, count: u16, room: usize) -> bool
    ensures { result ≡ fits words count room }
{
    words == BLOCK_WORDS && count <= 512 && (count as usize) <= room
}

// ---- over a lent slice of records

// The first records, so many, from the table of blocks.
fn fill(records: &mut [Block], blocks: &[u16], count: u16)
    requires { (length blocks.now ≡ block_words) × (count ≤ 512) × (count ≤ length records.old) }
    ensures { records.new ≡ filled records.old blocks.now count }
{
    for i in 0..count {
        records[i as usize] = block_at(blocks, BasicBlockId(i));
    }
}

// The blocks of a body, so many, as records. A table of another length, or more blocks than 512 or than there are records, are refused, and nothing is written.
pub fn blocks_as_records(blocks: &[u16], count: u16, records: &mut [Block]) -> bool
    ensures { (result ≡ fits (length blocks.now) count (length records.old)) × (records.new ≡ filled_where result records.old blocks.now count) × Shown result records.new blocks.now count }
{
    if records_fit(blocks.len(), count, records.len()) {
        fill(records, blocks, count);
        true
    } else {
        false
    }
}

// ---- above it: plain parameters. A local array is lent to be filled.

// The blocks of a body, so many, as the first of 512 records.
pub fn records_of(blocks: &[u16], count: u16) -> [Block; 512]
    requires { (length blocks.now ≡ block_words) × (count ≤ 512) }
    ensures { (length result ≡ 512) × (map terminator_in (take count result) ≡ terminators_of blocks.now count) }
{
    let mut records = blank_records();
    blocks_as_records(blocks, count, &mut records);
    records
}
