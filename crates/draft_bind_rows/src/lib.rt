// The row of a Bind, behind the binding of its name.
#![tactic(auto)]

ghost use Rattle.std.specs.Prelude.{◌≡◌, ◌≤◌, ◌<◌, length};
ghost use Rattle.image.specs.Tables.{Whole};
ghost use Rattle.draft_tables.specs.Room.{DraftRoom};
ghost use Rattle.draft_rows.specs.Nodes.{node_step};
ghost use Rattle.draft_binds.specs.Named.{SteppedFor};
ghost use Rattle.draft_binds.specs.Binds.{bind_of};

use draft_binds::with_binding;
use draft_lists::at_height;
use draft_nodes::first_word;
use draft_rows::put_pattern;
use draft_tables::DraftCounts;
use image::Tables;
use image::rows::PatRow;
use node_rows::MakingRow;

// A Bind. None where a limit is passed.
pub fn put_bind(
    sheet: &[u8],
    tables: Tables,
    names: &[u8],
    draft: &mut [u16],
    c: DraftCounts,
    row: MakingRow,
) -> Option<DraftCounts>
    requires { Whole sheet.now tables × ((length draft.old ≡ 40704) × (DraftRoom tables c × ((c.height < 16384) × (row.parts ≤ c.height)))) }
    ensures { SteppedFor names.now sheet.now tables draft.old c (node_step (bind_of names.now row) row.parts sheet.now names.now) result draft.new }
{
    let base = c.height - row.parts;
    let sub = first_word(draft, base, row.parts);
    let (number, bound) = with_binding(sheet, tables, names, draft, c, row)?;
    let pattern = PatRow {
        kind: 11,
        ty: row.ty,
        derefs: 0,
        a: number,
        b: sub,
        c: row.a,
        d: row.b,
    };
    put_pattern(tables, draft, at_height(bound, base), pattern)
}
