// A node of a type, under a default mode, by its kind.
ghost use Rattle.image.specs.Tables.{Whole};
ghost use Rattle.name_tables.specs.Tested.{NameBytesWithin};
ghost use Rattle.pattern_typing.specs.Resolving.{resolved_node};
ghost use Rattle.node_rows.specs.Nodes.{node_of};
ghost use Rattle.name_resolving.specs.Gives.{Gives};

use crate::leaves::{
    resolve_bound, resolve_bound_path, resolve_literal, resolve_or, resolve_range,
    resolve_reference,
};
use crate::lists::{resolve_record, resolve_slice, resolve_tuple, resolve_tuple_struct};
use image::Tables;
use name_idents::resolve_ident;
use name_resolving::Resolution;
use name_resolving::bindings::resolve_path;
use name_resolving::rows::{refused_here, whole_made};
use node_rows::NodeRow;

// Wild is 3, Rest 1. A field is read where a record's fields are, and nowhere else.
pub fn resolve_node(
    sheet: &[u8],
    tables: Tables,
    names: &[u8],
    spelled: &[u8],
    node: NodeRow,
    t: u16,
    mode: u16,
) -> Resolution
    requires { Whole sheet.now tables × NameBytesWithin names.now }
    ensures { Gives spelled.now result node.parts (λ text. resolved_node sheet.now names.now (node_of text spelled.now node) node.parts t mode) }
{
    let kind = node.kind;
    match kind {
        0 => whole_made(node.parts, t, 3),
        1 => whole_made(node.parts, t, 1),
        2 => resolve_literal(sheet, tables, node, t, mode),
        3 => resolve_bound(node),
        4 => resolve_bound_path(names, spelled, node),
        5 => resolve_range(sheet, tables, node, t, mode),
        6 => resolve_path(sheet, tables, names, spelled, node, t, mode),
        7 => resolve_ident(sheet, tables, names, spelled, node, t, mode),
        8 => resolve_reference(node, t),
        9 => resolve_tuple(sheet, tables, node, t, mode),
        10 => resolve_tuple_struct(sheet, tables, names, spelled, node, t, mode),
        11 => resolve_slice(sheet, tables, node, t, mode),
        12 => resolve_record(sheet, tables, names, spelled, node, t, mode),
        13 => refused_here(node.parts, node.spot),
        _ => resolve_or(node.parts, t, mode),
    }
}
