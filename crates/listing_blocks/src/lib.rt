// The blocks of document 01's listing of a body, each with its statements and its terminator, written into a lent buffer.
#![tactic(auto)]

ghost use Rattle.std.specs.Prelude.{◌≡◌, map, ◌≤◌, length, take};
ghost use Rattle.mir.specs.Statements.{statement_words};
ghost use Rattle.block_records.specs.Records.{terminator_in};
ghost use Rattle.listing_text.specs.Listing.{lines_text, block_text, blocks_text};
ghost use Rattle.listing_places.specs.RowParts.{lines_of};
ghost use Rattle.listing_text.specs.Writing.{Wrote};

use block_records::{Block, terminator_of};
use listing_statements::put_statement;
use listing_terminators::put_terminator;
use listing_text::numbers::put_line;
use listing_text::pen::{Pen, put};
use mir::blocks::Terminator;
use mir::{BasicBlockId, Counts, STATEMENT_WIDTH};

// The statements of a block, of the first statements of a table: so many.
fn put_statements(
    out: &mut [u8],
    pen: Pen,
    statements: &[u16],
    count: u16,
    block: BasicBlockId,
) -> Pen
    requires { (length statements.now ≡ statement_words) × (count ≤ 1024) }
    ensures { Wrote out.old pen (lines_text block.0 (lines_of statements.now count)) result out.new }
{
    let mut written = put(out, pen, b"");
    for i in 0..count {
        let at = STATEMENT_WIDTH * (i as usize);
        if statements[at] == block.0 {
            let end = at + STATEMENT_WIDTH;
            written = put_statement(out, written, &statements[at..end]);
        }
    }
    written
}

// The block b, with its terminator.
fn put_block(
    out: &mut [u8],
    pen: Pen,
    terminator: Terminator,
    statements: &[u16],
    count: u16,
    b: BasicBlockId,
) -> Pen
    requires { (length statements.now ≡ statement_words) × (count ≤ 1024) }
    ensures { Wrote out.old pen (block_text (lines_of statements.now count) b.0 terminator) result out.new }
{
    let begun = put_line(out, pen, b"bb ", b.0);
    let lines = put_statements(out, begun, statements, count, b);
    put_terminator(out, lines, terminator)
}

// All blocks, by their records.
pub fn put_blocks(
    out: &mut [u8],
    pen: Pen,
    records: [Block; 512],
    statements: &[u16],
    counts: Counts,
) -> Pen
    requires { (length statements.now ≡ statement_words) × (counts.blocks ≤ 512) × (counts.statements ≤ 1024) }
    ensures { Wrote out.old pen (blocks_text (lines_of statements.now counts.statements) 0 (map terminator_in (take counts.blocks records))) result out.new }
{
    let mut written = put(out, pen, b"");
    for b in 0..counts.blocks {
        let terminator = terminator_of(records[b as usize]);
        written = put_block(
            out,
            written,
            terminator,
            statements,
            counts.statements,
            BasicBlockId(b),
        );
    }
    written
}
