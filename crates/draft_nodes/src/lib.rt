// Nodes that add a row by the words of their parts, or only put words on the stack.
#![tactic(auto)]

ghost use Rattle.std.specs.Prelude.{◌≡◌, true, cond, ◌+◌, ◌≤◌, ◌<◌, eqb, length, get_or};
ghost use Rattle.pattern_syntax.specs.Formed.{one_if};
ghost use Rattle.pattern_typing.specs.Making.{operand_named, range_made, reference_made, field_made};
ghost use Rattle.draft_tables.specs.Room.{DraftRoom};
ghost use Rattle.draft_tables.specs.Steps.{SheetsStepped};
ghost use Rattle.draft_rows.specs.Nodes.{node_step};

use draft_lists::at_height;
use draft_rows::put_pattern;
use draft_tables::{DraftCounts, push_stack, stack_word};
use image::Tables;
use image::rows::PatRow;

// The first word of the parts, from a place of the stack on, or 65535 where there are none.
pub fn first_word(draft: &[u16], base: u16, parts: u16) -> u16
    requires { (length draft.now ≡ 40704) × (base < 16384) }
    ensures { result ≡ cond (eqb parts 0) 65535 (get_or draft.now (24320 + base) 0) }
{
    if parts == 0 {
        return 65535;
    }
    stack_word(draft, base)
}

// A Ref. None where a limit is passed.
pub fn put_reference(
    tables: Tables,
    draft: &mut [u16],
    c: DraftCounts,
    ty: u16,
    parts: u16,
) -> Option<DraftCounts>
    requires { (length draft.old ≡ 40704) × (DraftRoom tables c × ((c.height < 16384) × (parts ≤ c.height))) }
    ensures { SheetsStepped tables draft.old c (node_step (reference_made ty) parts) result draft.new }
{
    let base = c.height - parts;
    let row = PatRow {
        kind: 13,
        ty: ty,
        derefs: 0,
        a: first_word(draft, base, parts),
        b: 0,
        c: 0,
        d: 0,
    };
    put_pattern(tables, draft, at_height(c, base), row)
}

// A bound that is a constant: its list word. No limit can be passed: it is an `Option` as those beside it are.
pub fn put_constant(
    tables: Tables,
    draft: &mut [u16],
    c: DraftCounts,
    word: u16,
    parts: u16,
) -> Option<DraftCounts>
    requires { (length draft.old ≡ 40704) × (DraftRoom tables c × ((c.height < 16384) × (parts ≤ c.height))) }
    ensures { SheetsStepped tables draft.old c (node_step (operand_named word) parts) result draft.new }
{
    let words = [word];
    let low = at_height(c, c.height - parts);
    Some(push_stack(draft, low, &words, 1))
}

// A field: its number, and its pattern's. No limit can be passed.
pub fn put_field(
    tables: Tables,
    draft: &mut [u16],
    c: DraftCounts,
    number: u16,
) -> Option<DraftCounts>
    requires { (length draft.old ≡ 40704) × (DraftRoom tables c × ((c.height < 16384) × (1 ≤ c.height))) }
    ensures { SheetsStepped tables draft.old c (node_step (field_made number) 1) result draft.new }
{
    let base = c.height - 1;
    let words = [number, stack_word(draft, base)];
    let low = at_height(c, base);
    Some(push_stack(draft, low, &words, 2))
}

fn flag_word(flag: u16) -> u16
    ensures { result ≡ cond (eqb flag 1) 1 0 }
{
    if flag == 1 {
        return 1;
    }
    0
}

// The word of a bound that is there, at a place of the stack, or 65535.
fn bound_word(draft: &[u16], at: u16, flag: u16) -> u16
    requires { (length draft.now ≡ 40704) × (at < 16384) }
    ensures { result ≡ cond (eqb flag 1) (get_or draft.now (24320 + at) 0) 65535 }
{
    if flag == 1 {
        return stack_word(draft, at);
    }
    65535
}

// A Range: it has a lower bound, an upper one, `..`, where the word is 1. None where a limit is passed.
pub fn put_range(
    tables: Tables,
    draft: &mut [u16],
    c: DraftCounts,
    ty: u16,
    derefs: u16,
    lower: u16,
    upper: u16,
    dots: u16,
    parts: u16,
) -> Option<DraftCounts>
    requires { (length draft.old ≡ 40704) × (DraftRoom tables c × ((c.height < 16384) × ((parts ≤ c.height) × (eqb parts (one_if (eqb lower 1) + one_if (eqb upper 1)) ≡ true)))) }
    ensures { SheetsStepped tables draft.old c (node_step (range_made ty derefs (eqb lower 1) (eqb upper 1) (eqb dots 1)) parts) result draft.new }
{
    let base = c.height - parts;
    let row = PatRow {
        kind: 7,
        ty: ty,
        derefs: derefs,
        a: bound_word(draft, base, lower),
        b: bound_word(draft, base + flag_word(lower), upper),
        c: flag_word(dots),
        d: 0,
    };
    put_pattern(tables, draft, at_height(c, base), row)
}
