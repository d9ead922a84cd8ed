// Rows of makings of kinds 8 and up, added to the draft: a row with a list, a Slice, and a field.
#![tactic(auto)]

ghost use Rattle.std.specs.Prelude.{◌≡◌, cond, [], ◌*◌, ◌≤◌, ◌<◌, eqb, length};
ghost use Rattle.node_rows.specs.Makings.{closed_making_of};
ghost use Rattle.draft_makings.specs.Makings.{MakingReady, JoinedStepped};

use draft_lists::put_list;
use draft_nodes::put_field;
use draft_slices::put_slice;
use draft_tables::DraftCounts;
use image::Tables;
use image::rows::PatRow;
use node_rows::MakingRow;

// How many words the parts of a list have: those of a Record are fields, with two.
fn list_words(kind: u16, parts: u16) -> u16
    requires { cond (eqb kind 6) 2 1 * parts < 16384 }
    ensures { cond (eqb kind 6) 2 1 * parts ≡ result }
{
    if kind == 6 {
        return 2 * parts;
    }
    parts
}

// Kinds 8 and up: a row with a list, a Slice, and a field. None where a limit is passed.
pub fn put_joined(
    tables: Tables,
    draft: &mut [u16],
    c: DraftCounts,
    row: MakingRow,
) -> Option<DraftCounts>
    requires { ((length draft.old ≡ 40704) × (8 ≤ row.kind)) × MakingReady tables c (closed_making_of [] [] row) }
    ensures { JoinedStepped tables draft.old c row result draft.new }
{
    if row.kind == 8 {
        let pattern = PatRow {
            kind: row.a,
            ty: row.ty,
            derefs: row.derefs,
            a: 0,
            b: 0,
            c: row.b,
            d: row.c,
        };
        let many = list_words(row.a, row.parts);
        return put_list(tables, draft, c, pattern, row.parts, many);
    }
    if row.kind == 9 {
        return put_slice(tables, draft, c, row.ty, row.derefs, row.a, row.parts);
    }
    put_field(tables, draft, c, row.a)
}
