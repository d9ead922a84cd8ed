// What the fields of a struct, a variant or a tuple are read at, and the arguments that stand for them.
#![tactic(auto)]

ghost use Rattle.std.specs.Prelude.{◌≡◌};
ghost use Rattle.image.specs.Tables.{Whole};
ghost use Rattle.node_rows.specs.Nodes.{number_in};
ghost use Rattle.pattern_typing.specs.Contexts.{field_context, stands_before, argument_context};
ghost use Rattle.type_parts.specs.Parts.{fields_of, fields_in, context_of};

use image::Tables;
use type_parts::sheet::listed_in;
use type_parts::{FieldRun, PartContext, PartsRow};

// The field i.
pub fn field_context(
    sheet: &[u8],
    tables: Tables,
    fields: FieldRun,
    mode: u16,
    i: u32,
) -> PartContext
    requires { Whole sheet.now tables }
    ensures { context_of result ≡ field_context sheet.now (fields_of fields) mode i }
{
    if (fields.count as u32) <= i {
        return PartContext::Partless;
    }
    let ty = listed_in(sheet, tables, (fields.start as u32) + i);
    PartContext::Typed(ty, mode)
}

// An argument stands before the rest, or there is none.
fn stands_before(before: u16, i: u16) -> bool
    ensures { result ≡ stands_before (number_in before) i }
{
    if before == 65535 {
        return true;
    }
    i < before
}

// An argument's field is its number, or behind a rest counted from the end.
pub fn argument_context(sheet: &[u8], tables: Tables, parts: PartsRow, i: u16) -> PartContext
    requires { Whole sheet.now tables }
    ensures { context_of result ≡ argument_context sheet.now (fields_in parts) parts.mode (number_in parts.c) parts.many i }
{
    let fields = FieldRun {
        start: parts.a,
        count: parts.b,
    };
    if stands_before(parts.c, i) {
        return field_context(sheet, tables, fields, parts.mode, i as u32);
    }
    let at = (parts.b as u32) + (i as u32);
    if at < (parts.many as u32) {
        return PartContext::Partless;
    }
    field_context(sheet, tables, fields, parts.mode, at - (parts.many as u32))
}
