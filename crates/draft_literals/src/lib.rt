// Literals as patterns and as bounds of ranges: their operand, then a row or its place.
#![tactic(auto)]

ghost use Rattle.std.specs.Prelude.{◌≡◌, ◌≤◌, ◌<◌, length};
ghost use Rattle.pattern_typing.specs.Making.{literal_made, operand_made};
ghost use Rattle.draft_tables.specs.Room.{DraftRoom};
ghost use Rattle.draft_literals.specs.Literals.{LiteralStepped};

use draft_lists::at_height;
use draft_operands::{LiteralBytes, add_operand};
use draft_rows::put_pattern;
use draft_tables::{DraftCounts, push_stack};
use image::Tables;
use image::rows::PatRow;

// A Lit. None where a limit is passed.
pub fn put_literal(
    tables: Tables,
    draft: &mut [u16],
    c: DraftCounts,
    ty: u16,
    derefs: u16,
    operand: LiteralBytes,
    parts: u16,
) -> Option<DraftCounts>
    requires { (length draft.old ≡ 40704) × (DraftRoom tables c × ((c.height < 16384) × ((parts ≤ c.height) × ((operand.count ≤ 16) × (length operand.bytes ≡ 16))))) }
    ensures { LiteralStepped tables draft.old c operand (literal_made ty derefs) parts result draft.new }
{
    let row = PatRow {
        kind: 10,
        ty: ty,
        derefs: derefs,
        a: tables.list.count + c.words,
        b: 0,
        c: 0,
        d: 0,
    };
    let base = c.height - parts;
    let added = add_operand(tables, draft, c, operand)?;
    put_pattern(tables, draft, at_height(added, base), row)
}

// A bound of a range: its operand's place on the stack. None where a limit is passed.
pub fn put_operand(
    tables: Tables,
    draft: &mut [u16],
    c: DraftCounts,
    operand: LiteralBytes,
    parts: u16,
) -> Option<DraftCounts>
    requires { (length draft.old ≡ 40704) × (DraftRoom tables c × ((c.height < 16384) × ((parts ≤ c.height) × ((operand.count ≤ 16) × (length operand.bytes ≡ 16))))) }
    ensures { LiteralStepped tables draft.old c operand operand_made parts result draft.new }
{
    let words = [tables.list.count + c.words];
    let base = c.height - parts;
    let added = add_operand(tables, draft, c, operand)?;
    let low = at_height(added, base);
    Some(push_stack(draft, low, &words, 1))
}
