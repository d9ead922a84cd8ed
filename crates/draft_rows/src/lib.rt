// Patterns of the draft: a row and its number on the stack.
#![tactic(auto)]

ghost use Rattle.std.specs.Prelude.{◌≡◌, ◌<◌, length};
ghost use Rattle.draft_tables.specs.Room.{DraftRoom};
ghost use Rattle.draft_tables.specs.Steps.{SheetsStepped};
ghost use Rattle.draft_rows.specs.Nodes.{row_step};

use draft_tables::{DraftCounts, push_pattern, push_stack};
use image::Tables;
use image::rows::PatRow;

// A pattern behind those that are there, and its number on the stack. None where a limit is passed.
pub fn put_pattern(
    tables: Tables,
    draft: &mut [u16],
    c: DraftCounts,
    row: PatRow,
) -> Option<DraftCounts>
    requires { (length draft.old ≡ 40704) × (DraftRoom tables c × (c.height < 16384)) }
    ensures { SheetsStepped tables draft.old c (row_step row) result draft.new }
{
    if 16 < row.derefs {
        return None;
    }
    let p = tables.patterns.count + c.patterns;
    if 512 <= p {
        return None;
    }
    let added = push_pattern(draft, c, row);
    let number = [p];
    Some(push_stack(draft, added, &number, 1))
}
