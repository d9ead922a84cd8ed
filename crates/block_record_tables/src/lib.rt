// Blocks in a lent table of records: a terminator is set and read in a slice of block structs that the caller lends. What is looked
// at in a record, and what is made of one, are functions over records by value; each function over the slice reads or stores one of them.
#![tactic(auto)]

ghost use Rattle.std.specs.Prelude.{◌≡◌, ◌+◌, ◌<◌, eqb, ltb, length, get_or, set};
ghost use Rattle.block_records.specs.Records.{blank, terminator_in};
ghost use Rattle.block_record_tables.specs.Looks.{look_at, open_at, put_at};

use block_records::{Block, block_of, terminator_of};
use mir::BasicBlockId;
use mir::blocks::Terminator;

// What is found in a record.
fn found(block: Block) -> Option<Terminator>
    ensures { result ≡ Some (terminator_in block) }
{
    Some(terminator_of(block))
}

// A record lacks a terminator.
fn lacks_terminator(block: Block) -> bool
    ensures { result ≡ eqb block.kind 0 }
{
    block.kind == 0
}

// ---- over a lent slice of records

pub fn record_at(records: &[Block], b: usize) -> Block
    requires { b < length records.now }
    ensures { result ≡ get_or records.now b blank }
{
    records[b]
}

pub fn set_record(records: &mut [Block], b: usize, block: Block)
    requires { b < length records.old }
    ensures { records.new ≡ set records.old b block }
{
    records[b] = block;
}

// The terminator of a block, if there is a record for it.
pub fn terminator(records: &[Block], b: BasicBlockId) -> Option<Terminator>
    ensures { result ≡ look_at records.now b.0 }
{
    let at = b.0 as usize;
    if at < records.len() {
        found(record_at(records, at))
    } else {
        None
    }
}

// There is a record for a block, and it lacks a terminator.
pub fn is_unterminated(records: &[Block], b: BasicBlockId) -> bool
    ensures { result ≡ open_at records.now b.0 }
{
    let at = b.0 as usize;
    if at < records.len() {
        lacks_terminator(record_at(records, at))
    } else {
        false
    }
}

// The terminator of a block, in place of what it had. Where there is no record for it nothing is written, and the answer is false.
pub fn set_terminator(records: &mut [Block], b: BasicBlockId, terminator: Terminator) -> bool
    ensures { (result ≡ ltb b.0 (length records.old)) × (records.new ≡ put_at records.old b.0 terminator) }
{
    let at = b.0 as usize;
    if at < records.len() {
        set_record(records, at, block_of(terminator));
        true
    } else {
        false
    }
}
