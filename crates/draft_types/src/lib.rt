// The types that a binding may lack: "of .. types alike the first serves", and what is not there is added to the draft.
#![tactic(auto)]

ghost use Rattle.std.specs.Prelude.{◌≡◌, ◌||◌, ◌+◌, ◌≤◌, ◌<◌, eqb, length};
ghost use Rattle.image.specs.Tables.{Whole};
ghost use Rattle.name_tables.specs.Names.{first_from};
ghost use Rattle.pattern_images.specs.Drafts.{same_flag, alike};
ghost use Rattle.draft_tables.specs.Room.{DraftRoom};
ghost use Rattle.draft_types.specs.Types.{type_from, found, TypeStepped};

use draft_tables::{DraftCounts, added_type, push_type};
use image::Tables;
use image::rows::{TypeRow, type_at};

// References have no length.
fn same_length(row: TypeRow, other: TypeRow) -> bool
    ensures { result ≡ (eqb row.kind 7 || eqb row.b other.b) }
{
    if row.kind == 7 {
        return true;
    }
    row.b == other.b
}

// Both flags are set, or neither.
fn same_flag(flag: u16, other: u16) -> bool
    ensures { result ≡ same_flag (eqb flag 1) (eqb other 1) }
{
    if flag == 1 {
        return other == 1;
    }
    other != 1
}

pub fn is_alike(row: TypeRow, other: TypeRow) -> bool
    ensures { result ≡ alike row other }
{
    if row.kind != other.kind {
        return false;
    }
    if row.a != other.a {
        return false;
    }
    if !same_length(row, other) {
        return false;
    }
    same_flag(row.copy, other.copy)
}

// The type t of the sheet or of those that were added behind them.
fn type_from(sheet: &[u8], tables: Tables, draft: &[u16], t: u16) -> TypeRow
    requires { Whole sheet.now tables × ((length draft.now ≡ 40704) × (t < tables.types.count + 256)) }
    ensures { result ≡ type_from sheet.now draft.now t }
{
    if t < tables.types.count {
        return type_at(sheet, tables, t);
    }
    added_type(draft, t - tables.types.count)
}

// The first of so many types that is like a row, or none.
pub fn like_type(
    sheet: &[u8],
    tables: Tables,
    draft: &[u16],
    many: u16,
    row: TypeRow,
) -> Option<u16>
    requires { Whole sheet.now tables × ((length draft.now ≡ 40704) × (many ≤ tables.types.count + 256)) }
    ensures { found result ≡ first_from (λ t. alike row (type_from sheet.now draft.now t)) 0 many }
{
    for t in 0..many {
        if is_alike(row, type_from(sheet, tables, draft, t)) {
            return Some(t);
        }
    }
    None
}

// A type's number: that of the first one like it, or it is added. None where a limit is passed.
pub fn with_type(
    sheet: &[u8],
    tables: Tables,
    draft: &mut [u16],
    c: DraftCounts,
    row: TypeRow,
) -> Option<(u16, DraftCounts)>
    requires { Whole sheet.now tables × ((length draft.old ≡ 40704) × DraftRoom tables c) }
    ensures { TypeStepped sheet.now tables draft.old c row result draft.new }
{
    let many = tables.types.count + c.types;
    match like_type(sheet, tables, draft, many, row) {
        Some(t) => Some((t, c)),
        None => {
            if 256 <= many {
                return None;
            }
            let more = push_type(draft, c, row);
            Some((many, more))
        }
    }
}
