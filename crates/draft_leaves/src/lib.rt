// Rows of makings of kinds 0 to 4, added to the draft: nothing at all, a row without a list, a literal, and the bounds of ranges.
#![tactic(auto)]

ghost use Rattle.std.specs.Prelude.{◌≡◌, [], ◌≤◌, ◌<◌, length};
ghost use Rattle.pattern_typing.specs.Making.{row_made, pattern_row};
ghost use Rattle.node_rows.specs.Makings.{closed_making_of};
ghost use Rattle.draft_tables.specs.Room.{DraftRoom};
ghost use Rattle.draft_tables.specs.Steps.{SheetsStepped};
ghost use Rattle.draft_rows.specs.Nodes.{node_step};
ghost use Rattle.draft_makings.specs.Makings.{MakingReady, LeafStepped};

use draft_lists::at_height;
use draft_literals::{put_literal, put_operand};
use draft_nodes::put_constant;
use draft_operands::literal_bytes;
use draft_rows::put_pattern;
use draft_tables::DraftCounts;
use image::Tables;
use image::rows::PatRow;
use node_rows::MakingRow;

// A row without a list: its pattern kind in `a`, its words in `b` and `c`. None where a limit is passed.
fn put_row(tables: Tables, draft: &mut [u16], c: DraftCounts, row: MakingRow) -> Option<DraftCounts>
    requires { (length draft.old ≡ 40704) × (DraftRoom tables c × ((c.height < 16384) × (row.parts ≤ c.height))) }
    ensures { SheetsStepped tables draft.old c (node_step (row_made (pattern_row row.a row.ty row.derefs row.b row.c 0 0)) row.parts) result draft.new }
{
    let pattern = PatRow {
        kind: row.a,
        ty: row.ty,
        derefs: row.derefs,
        a: row.b,
        b: row.c,
        c: 0,
        d: 0,
    };
    let low = at_height(c, c.height - row.parts);
    put_pattern(tables, draft, low, pattern)
}

// Kinds 0 to 4: nothing at all, a row, a literal, and the bounds of ranges. None where a limit is passed.
pub fn put_leaf(
    tables: Tables,
    text: &[u8],
    draft: &mut [u16],
    c: DraftCounts,
    row: MakingRow,
) -> Option<DraftCounts>
    requires { ((length draft.old ≡ 40704) × (row.kind < 5)) × MakingReady tables c (closed_making_of text.now [] row) }
    ensures { LeafStepped text.now tables draft.old c row result draft.new }
{
    if row.kind == 0 {
        return Some(at_height(c, c.height - row.parts));
    }
    if row.kind == 1 {
        return put_row(tables, draft, c, row);
    }
    if row.kind == 4 {
        return put_constant(tables, draft, c, row.a, row.parts);
    }
    let operand = literal_bytes(text, row.a, row.from, row.to);
    if row.kind == 2 {
        return put_literal(tables, draft, c, row.ty, row.derefs, operand, row.parts);
    }
    put_operand(tables, draft, c, operand, row.parts)
}
