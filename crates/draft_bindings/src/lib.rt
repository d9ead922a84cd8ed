// A name's binding: the types that it lacks, "an array before the reference to it", and its row with the name's range.
#![tactic(auto)]

ghost use Rattle.std.specs.Prelude.{◌≡◌, cond, eqb, length};
ghost use Rattle.image.specs.Tables.{Whole};
ghost use Rattle.pattern_syntax.specs.Reduced.{bytes_from};
ghost use Rattle.pattern_images.specs.Emitting.{with_bound_at, bound_type, with_mode, mode_type, new_binding};
ghost use Rattle.draft_tables.specs.Layout.{drafted};
ghost use Rattle.draft_tables.specs.Room.{DraftRoom};
ghost use Rattle.draft_tables.specs.Steps.{DraftStepped};
ghost use Rattle.draft_bindings.specs.Bindings.{bound_at_of, NumberStepped};

use draft_tables::{DraftCounts, push_binding};
use draft_types::with_type;
use image::Tables;
use image::rows::TypeRow;

// What a name is bound at: a type where `element` is 65535, or an array.
#[derive(Clone, Copy)]
pub struct BoundWords {
    pub ty: u16,
    pub element: u16,
    pub many: u16,
    pub copy: u16,
}

// The type that a name is bound at. None where a limit is passed.
fn with_bound(
    sheet: &[u8],
    tables: Tables,
    draft: &mut [u16],
    c: DraftCounts,
    at: BoundWords,
) -> Option<(u16, DraftCounts)>
    requires { Whole sheet.now tables × ((length draft.old ≡ 40704) × DraftRoom tables c) }
    ensures { NumberStepped sheet.now tables draft.old c (with_bound_at sheet.now (bound_at_of at)) (bound_type sheet.now (bound_at_of at)) result draft.new }
{
    if at.element == 65535 {
        return Some((at.ty, c));
    }
    let row = TypeRow {
        kind: 8,
        a: at.element,
        b: at.many,
        c: 0,
        copy: at.copy,
    };
    with_type(sheet, tables, draft, c, row)
}

// The copy flag of a reference: 1 by ref, 0 by ref mut.
fn reference_flag(mode: u16) -> u16
    ensures { result ≡ cond (eqb mode 1) 1 0 }
{
    if mode == 1 {
        return 1;
    }
    0
}

// The type of a binding: by value what it is bound at, else a reference to it. None where a limit is passed.
fn with_mode(
    sheet: &[u8],
    tables: Tables,
    draft: &mut [u16],
    c: DraftCounts,
    mode: u16,
    t: u16,
) -> Option<(u16, DraftCounts)>
    requires { Whole sheet.now tables × ((length draft.old ≡ 40704) × DraftRoom tables c) }
    ensures { NumberStepped sheet.now tables draft.old c (with_mode sheet.now mode t) (mode_type sheet.now mode t) result draft.new }
{
    if mode == 0 {
        return Some((t, c));
    }
    let row = TypeRow {
        kind: 7,
        a: t,
        b: 0,
        c: 0,
        copy: reference_flag(mode),
    };
    with_type(sheet, tables, draft, c, row)
}

// The binding of a name that has none yet.
pub fn new_binding(
    sheet: &[u8],
    tables: Tables,
    draft: &mut [u16],
    c: DraftCounts,
    mode: u16,
    at: BoundWords,
    from: u16,
    to: u16,
) -> Option<DraftCounts>
    requires { Whole sheet.now tables × ((length draft.old ≡ 40704) × DraftRoom tables c) }
    ensures { DraftStepped sheet.now tables draft.old c (λ names s. drafted (new_binding sheet.now mode (bytes_from names from to) (bound_at_of at)) s) result draft.new }
{
    let (bound, first) = with_bound(sheet, tables, draft, c, at)?;
    let (held, second) = with_mode(sheet, tables, draft, first, mode, bound)?;
    if 256 <= tables.bindings.count + second.bindings {
        return None;
    }
    Some(push_binding(draft, second, held, from, to))
}
