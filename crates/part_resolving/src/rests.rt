// The rest of a slice, alone or with a name.
ghost use Rattle.std.specs.Prelude.{◌≡◌, true, cond, ◌<◌};
ghost use Rattle.std.proofs.Math.Option.{some};
ghost use Rattle.image.specs.Tables.{Whole, type_count};
ghost use Rattle.image.specs.Types.{is_set};
ghost use Rattle.type_sheets.specs.Sheets.{sheet_holds};
ghost use Rattle.name_tables.specs.Names.{as_value, row_for};
ghost use Rattle.name_tables.specs.Tested.{NameBytesWithin};
ghost use Rattle.pattern_typing.specs.Resolving.{binds_in, resolved_rest};
ghost use Rattle.node_rows.specs.Nodes.{name_in, node_of};
ghost use Rattle.name_resolving.specs.Gives.{Gives, marked_in, bound_at_of};
ghost use Rattle.part_resolving.specs.Parts.{rest_bound_to};

use image::Tables;
use name_resolving::Resolution;
use name_resolving::bindings::binding;
use name_resolving::lookup::look_up;
use name_resolving::rows::{refused_here, whole_made};
use name_tables::NameUse;
use node_rows::NodeRow;
use type_parts::sheet::type_in;

// 1 where a flag is set.
fn flag_word(copy: u16) -> u16
    ensures { result ≡ cond (is_set copy) 1 0 }
{
    if copy == 1 { 1 } else { 0 }
}

// A rest that is bound at this, unless its name is a variant or a constant.
fn bind_rest(
    names: &[u8],
    spelled: &[u8],
    node: NodeRow,
    t: u16,
    mode: u16,
    element: u16,
    many: u16,
    copy: u16,
) -> Resolution
    requires { NameBytesWithin names.now }
    ensures { Gives spelled.now result node.parts (λ text. rest_bound_to (row_for names.now as_value (name_in spelled.now node).bytes) (marked_in spelled.now node) t mode (bound_at_of t element many copy)) }
{
    let Some((kind, number)) = look_up(names, NameUse::Value, spelled, node) else {
        return binding(node, t, mode, element, many, copy);
    };
    refused_here(node.parts, node.spot)
}

// A name that is bound to a rest: of a slice at its type, of an array at an array of what is left.
fn resolve_bound_rest(
    sheet: &[u8],
    tables: Tables,
    names: &[u8],
    spelled: &[u8],
    node: NodeRow,
    t: u16,
    others: u16,
    mode: u16,
) -> Resolution
    requires { Whole sheet.now tables × NameBytesWithin names.now × (sheet_holds sheet.now ≡ true) × (t < type_count sheet.now) }
    ensures { Gives spelled.now result node.parts (λ text. resolved_rest sheet.now names.now node.at (some (marked_in spelled.now node)) t others mode) }
{
    let row = type_in(sheet, tables, t);
    if row.kind == 9 {
        return bind_rest(names, spelled, node, t, mode, 65535, 0, 0);
    }
    if row.kind != 8 {
        return refused_here(node.parts, node.at);
    }
    if row.b < others {
        return refused_here(node.parts, node.at);
    }
    let element = type_in(sheet, tables, row.a);
    let copy = flag_word(element.copy);
    bind_rest(names, spelled, node, t, mode, row.a, row.b - others, copy)
}

// A rest among so many other items.
pub fn resolve_rest(
    sheet: &[u8],
    tables: Tables,
    names: &[u8],
    spelled: &[u8],
    node: NodeRow,
    t: u16,
    others: u16,
    mode: u16,
) -> Resolution
    requires { Whole sheet.now tables × NameBytesWithin names.now × (sheet_holds sheet.now ≡ true) × (t < type_count sheet.now) }
    ensures { Gives spelled.now result node.parts (λ text. resolved_rest sheet.now names.now node.at (binds_in (node_of text spelled.now node)) t others mode) }
{
    if node.kind != 7 {
        return whole_made(node.parts, t, 1);
    }
    resolve_bound_rest(sheet, tables, names, spelled, node, t, others, mode)
}
