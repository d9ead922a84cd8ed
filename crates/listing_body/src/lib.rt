// Document 01's listing of a body, written into a lent buffer.
#![tactic(auto)]

ghost use Rattle.std.specs.Prelude.{◌≡◌, ◌≤◌, ◌++◌, length};
ghost use Rattle.mir.specs.Blocks.{block_words};
ghost use Rattle.mir.specs.Statements.{statement_words};
ghost use Rattle.state.specs.State.{decode};
ghost use Rattle.body_tables.specs.Layout.{body_words, body_of};
ghost use Rattle.views.specs.Views.{mir_of};
ghost use Rattle.block_records.specs.Records.{terminators_of};
ghost use Rattle.listing_places.specs.RowParts.{lines_of};
ghost use Rattle.listing_text.specs.Words.{then_word, else_word, newline};
ghost use Rattle.listing_text.specs.Numbers.{decimal};
ghost use Rattle.listing_text.specs.Listing.{else_text, blocks_text, listing};
ghost use Rattle.listing_text.specs.Writing.{Wrote};

use block_record_filling::records_of;
use body_tables::{LOCALS, SCOPES, STATEMENTS};
use listing_blocks::put_blocks;
use listing_places::locals::put_locals;
use listing_text::numbers::{put_decimal, put_numbered};
use listing_text::pen::{Pen, put};
use mir::{BasicBlockId, Counts};

// Where a test that fails goes.
fn put_else(out: &mut [u8], pen: Pen, els: Option<BasicBlockId>) -> Pen
    ensures { Wrote out.old pen (else_text els) result out.new }
{
    match els {
        None => put(out, pen, b"-"),
        Some(b) => put_decimal(out, pen, b.0),
    }
}

// The first line: the block where the lowering goes on, and where a test that fails goes.
fn put_head(out: &mut [u8], pen: Pen, then: BasicBlockId, els: Option<BasicBlockId>) -> Pen
    ensures { Wrote out.old pen (then_word ++ (decimal then.0 ++ (else_word ++ (else_text els ++ newline)))) result out.new }
{
    let first = put_numbered(out, pen, b"then ", then.0);
    let middle = put(out, first, b" else ");
    let second = put_else(out, middle, els);
    put(out, second, b"\n")
}

// The blocks of a body's table, read as records once, with their statements and terminators.
fn put_recorded(out: &mut [u8], pen: Pen, blocks: &[u16], statements: &[u16], counts: Counts) -> Pen
    requires { (length blocks.now ≡ block_words) × (length statements.now ≡ statement_words) × (counts.blocks ≤ 512) × (counts.statements ≤ 1024) }
    ensures { Wrote out.old pen (blocks_text (lines_of statements.now counts.statements) 0 (terminators_of blocks.now counts.blocks)) result out.new }
{
    let records = records_of(blocks, counts.blocks);
    put_blocks(out, pen, records, statements, counts)
}

// The listing of a body in a lent table, with the blocks where its lowering goes on.
pub fn put_listing(
    out: &mut [u8],
    pen: Pen,
    body: &[u16],
    counts: Counts,
    then: BasicBlockId,
    els: Option<BasicBlockId>,
) -> Pen
    requires { (length body.now ≡ body_words) × (counts.blocks ≤ 512) × (counts.statements ≤ 1024) × (counts.locals ≤ 512) }
    ensures { Wrote out.old pen (listing then els (mir_of (decode (body_of body.now) counts))) result out.new }
{
    let begun = put_head(out, pen, then, els);
    let named = put_locals(out, begun, &body[LOCALS..SCOPES], counts.locals);
    put_recorded(
        out,
        named,
        &body[0..STATEMENTS],
        &body[STATEMENTS..LOCALS],
        counts,
    )
}
