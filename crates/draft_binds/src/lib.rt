// The binding of a Bind's name, which is made where the name has none yet.
#![tactic(auto)]

ghost use Rattle.std.specs.Prelude.{◌≡◌, length};
ghost use Rattle.image.specs.Tables.{Whole};
ghost use Rattle.pattern_syntax.specs.Reduced.{bytes_from};
ghost use Rattle.node_rows.specs.Makings.{bound_at_in};
ghost use Rattle.draft_tables.specs.Room.{DraftRoom};
ghost use Rattle.draft_binds.specs.Binds.{BindingStepped};

use draft_bindings::{BoundWords, new_binding};
use draft_names::binding_of;
use draft_tables::DraftCounts;
use image::Tables;
use node_rows::MakingRow;

// The binding of a row's name: the one that it has, or a new one. None where a limit is passed.
pub fn with_binding(
    sheet: &[u8],
    tables: Tables,
    names: &[u8],
    draft: &mut [u16],
    c: DraftCounts,
    row: MakingRow,
) -> Option<(u16, DraftCounts)>
    requires { Whole sheet.now tables × ((length draft.old ≡ 40704) × DraftRoom tables c) }
    ensures { BindingStepped names.now sheet.now tables draft.old c row.a (bytes_from names.now row.from row.to) (bound_at_in row) result draft.new }
{
    let first = tables.bindings.count;
    if let Some(b) = binding_of(names, draft, c.bindings, row.from, row.to) {
        return Some((first + b, c));
    }
    let at = BoundWords {
        ty: row.ty,
        element: row.element,
        many: row.many,
        copy: row.copy,
    };
    let bound = new_binding(sheet, tables, draft, c, row.a, at, row.from, row.to)?;
    Some((first + c.bindings, bound))
}
