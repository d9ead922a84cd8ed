// What is made of a node, added to the draft: a row of makings by its kind.
#![tactic(auto)]

ghost use Rattle.std.specs.Prelude.{◌≡◌, [], ◌≤◌, ◌<◌, length};
ghost use Rattle.image.specs.Tables.{Whole};
ghost use Rattle.node_rows.specs.Makings.{making_row_at, closed_making_of};
ghost use Rattle.draft_makings.specs.Makings.{MakingReady, MakingStepped, NodeStepped};

use draft_bind_rows::put_bind;
use draft_joins::put_joined;
use draft_leaves::put_leaf;
use draft_nodes::{put_range, put_reference};
use draft_tables::DraftCounts;
use image::Tables;
use node_rows::MakingRow;

// The making i.
fn making_at(makings: &[u16], i: usize) -> MakingRow
    requires { (length makings.now ≡ 196608) × (i < 16384) }
    ensures { result ≡ making_row_at makings.now i }
{
    let at = 12 * i;
    MakingRow {
        kind: makings[at],
        parts: makings[at + 1],
        ty: makings[at + 2],
        derefs: makings[at + 3],
        a: makings[at + 4],
        b: makings[at + 5],
        c: makings[at + 6],
        from: makings[at + 7],
        to: makings[at + 8],
        element: makings[at + 9],
        many: makings[at + 10],
        copy: makings[at + 11],
    }
}

// Kinds 5 to 7: a Range, a Bind and a Ref. None where a limit is passed.
fn put_node(
    sheet: &[u8],
    tables: Tables,
    names: &[u8],
    draft: &mut [u16],
    c: DraftCounts,
    row: MakingRow,
) -> Option<DraftCounts>
    requires { (Whole sheet.now tables × ((length draft.old ≡ 40704) × ((5 ≤ row.kind) × (row.kind < 8)))) × MakingReady tables c (closed_making_of [] names.now row) }
    ensures { NodeStepped sheet.now names.now tables draft.old c row result draft.new }
{
    if row.kind == 5 {
        return put_range(
            tables, draft, c, row.ty, row.derefs, row.a, row.b, row.c, row.parts,
        );
    }
    if row.kind == 6 {
        return put_bind(sheet, tables, names, draft, c, row);
    }
    put_reference(tables, draft, c, row.ty, row.parts)
}

// The making i, added to the draft. None where a limit is passed.
pub fn emit_one(
    sheet: &[u8],
    tables: Tables,
    text: &[u8],
    names: &[u8],
    makings: &[u16],
    i: usize,
    draft: &mut [u16],
    c: DraftCounts,
) -> Option<DraftCounts>
    requires { (Whole sheet.now tables × ((length makings.now ≡ 196608) × ((i < 16384) × (length draft.old ≡ 40704)))) × MakingReady tables c (closed_making_of text.now names.now (making_row_at makings.now i)) }
    ensures { MakingStepped sheet.now text.now names.now tables draft.old c (making_row_at makings.now i) result draft.new }
{
    let row = making_at(makings, i);
    if row.kind < 5 {
        return put_leaf(tables, text, draft, c, row);
    }
    if row.kind < 8 {
        return put_node(sheet, tables, names, draft, c, row);
    }
    put_joined(tables, draft, c, row)
}
