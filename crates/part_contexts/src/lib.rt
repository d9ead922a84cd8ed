// What a part of a node is read at.
#![tactic(auto)]

ghost use Rattle.std.specs.Prelude.{◌≡◌, ◌-◌};
ghost use Rattle.image.specs.Tables.{Whole};
ghost use Rattle.node_rows.specs.Nodes.{number_in};
ghost use Rattle.pattern_typing.specs.Contexts.{is_rest_item, item_context, part_context};
ghost use Rattle.type_parts.specs.Parts.{context_of, parts_of};

use image::Tables;
use part_arguments::{argument_context, field_context};
use part_targets::target_context;
use type_parts::sheet::type_in;
use type_parts::{FieldRun, PartContext, PartsRow};

// An item is the rest.
fn is_rest_item(before: u16, i: u16) -> bool
    ensures { result ≡ is_rest_item (number_in before) i }
{
    if before == 65535 {
        return false;
    }
    before == i
}

// One less, or 0.
fn one_less(many: u16) -> u16
    ensures { result ≡ many - 1 }
{
    if many == 0 { 0 } else { many - 1 }
}

// An item of an array or a slice is its element.
fn item_context(sheet: &[u8], tables: Tables, parts: PartsRow, i: u16) -> PartContext
    requires { Whole sheet.now tables }
    ensures { context_of result ≡ item_context sheet.now parts.a parts.mode (number_in parts.c) parts.many i }
{
    if is_rest_item(parts.c, i) {
        let others = one_less(parts.many);
        return PartContext::RestAmong(parts.a, others, parts.mode);
    }
    let row = type_in(sheet, tables, parts.a);
    if row.kind == 8 {
        return PartContext::Typed(row.a, parts.mode);
    }
    if row.kind == 9 {
        return PartContext::Typed(row.a, parts.mode);
    }
    PartContext::Partless
}

// What the part i is read at.
pub fn part_context(sheet: &[u8], tables: Tables, parts: PartsRow, i: u16) -> PartContext
    requires { Whole sheet.now tables }
    ensures { context_of result ≡ part_context sheet.now (parts_of parts) i }
{
    let kind = parts.kind;
    match kind {
        0 => PartContext::Unseen,
        1 => PartContext::Typed(parts.a, parts.mode),
        2 => target_context(sheet, tables, parts.b == 1, parts.a),
        3 => argument_context(sheet, tables, parts, i),
        4 => item_context(sheet, tables, parts, i),
        5 => PartContext::FieldAt(parts.a, parts.b, parts.mode),
        _ => {
            let fields = FieldRun {
                start: parts.a,
                count: parts.b,
            };
            field_context(sheet, tables, fields, parts.mode, parts.c as u32)
        }
    }
}
