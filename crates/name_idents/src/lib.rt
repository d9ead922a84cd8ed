// A name alone: a path where it is a variant or a constant, else a binding.
#![tactic(auto)]

ghost use Rattle.image.specs.Tables.{Whole};
ghost use Rattle.name_tables.specs.Names.{as_value, row_for};
ghost use Rattle.name_tables.specs.Tested.{NameBytesWithin};
ghost use Rattle.pattern_typing.specs.Resolving.{resolved_ident};
ghost use Rattle.node_rows.specs.Nodes.{name_in};
ghost use Rattle.name_resolving.specs.Gives.{Gives, marked_in};

use image::Tables;
use name_resolving::Resolution;
use name_resolving::bindings::{binding, path_made};
use name_resolving::lookup::look_up;
use name_resolving::rows::refused_here;
use name_tables::NameUse;
use node_rows::NodeRow;
use type_crossing::cross;

// A name alone: a path where it is a variant or a constant, and then with no `ref`, `mut` or `@`; else a binding.
pub fn resolve_ident(
    sheet: &[u8],
    tables: Tables,
    names: &[u8],
    spelled: &[u8],
    node: NodeRow,
    t: u16,
    mode: u16,
) -> Resolution
    requires { Whole sheet.now tables × NameBytesWithin names.now }
    ensures { Gives spelled.now result node.parts (λ text. resolved_ident sheet.now names.now (row_for names.now as_value (name_in spelled.now node).bytes) (marked_in spelled.now node) t mode node.parts) }
{
    let Some((kind, number)) = look_up(names, NameUse::Value, spelled, node) else {
        return binding(node, t, mode, 65535, 0, 0);
    };
    if node.more != 0 {
        return refused_here(node.parts, node.spot);
    }
    if node.parts != 0 {
        return refused_here(node.parts, node.spot);
    }
    path_made(node.parts, cross(sheet, tables, t, mode), kind, number)
}
