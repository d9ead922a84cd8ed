// What comes behind a refusal: the row of a block, and the same put back as it was.
#![tactic(auto)]

ghost use Rattle.std.specs.Prelude.{◌≡◌, ◌*◌, ◌<◌, length};
ghost use Rattle.row_tables.specs.Rows.{row_at, stored};
ghost use Rattle.mir.specs.Blocks.{block_words, block_width};
ghost use Rattle.body_tables.specs.Layout.{body_words, body_of, with_blocks};

use body_tables::STATEMENTS;
use mir::{BLOCK_WIDTH, BasicBlockId};
use row_tables::store_row;

// The row of a block, in the table of the blocks.
fn row_of(blocks: &[u16], b: BasicBlockId) -> [u16; 12]
    requires { (length blocks.now ≡ block_words) × (b.0 < 512) }
    ensures { result ≡ row_at block_width blocks.now b.0 }
{
    let at = BLOCK_WIDTH * (b.0 as usize);
    [
        blocks[at],
        blocks[at + 1],
        blocks[at + 2],
        blocks[at + 3],
        blocks[at + 4],
        blocks[at + 5],
        blocks[at + 6],
        blocks[at + 7],
        blocks[at + 8],
        blocks[at + 9],
        blocks[at + 10],
        blocks[at + 11],
    ]
}

// The row of a block.
pub fn block_row(body: &[u16], b: BasicBlockId) -> [u16; 12]
    requires { (length body.now ≡ body_words) × (b.0 < 512) }
    ensures { result ≡ row_at block_width (body_of body.now).blocks b.0 }
{
    row_of(&body[0..STATEMENTS], b)
}

// The row of a block as it was, in the table of the blocks.
fn store_at(blocks: &mut [u16], b: BasicBlockId, row: [u16; 12])
    requires { (length blocks.old ≡ block_words) × (b.0 < 512) }
    ensures { blocks.new ≡ stored blocks.old (block_width * b.0) row }
{
    store_row(blocks, BLOCK_WIDTH * (b.0 as usize), &row);
}

// The row of a block as it was.
pub fn put_back(body: &mut [u16], b: BasicBlockId, row: [u16; 12])
    requires { (length body.old ≡ body_words) × (b.0 < 512) }
    ensures { body_of body.new ≡ with_blocks (body_of body.old) (stored (body_of body.old).blocks (block_width * b.0) row) }
{
    store_at(&mut body[0..STATEMENTS], b, row);
}
