// What becomes of a node, by what it is read at: a position that is refused, or what is made of it and how its parts are read.
#![tactic(auto)]

mod leaves; // leaves.rt: literals, ranges, references and alternatives
mod lists; // lists.rt: tuples, tuple structs, slices and records
pub mod nodes; // nodes.rt: a node by its kind

ghost use Rattle.std.specs.Prelude.{◌≡◌, true};
ghost use Rattle.image.specs.Tables.{Whole};
ghost use Rattle.type_sheets.specs.Sheets.{sheet_holds};
ghost use Rattle.name_tables.specs.Tested.{NameBytesWithin};
ghost use Rattle.pattern_typing.specs.Resolving.{resolved};
ghost use Rattle.node_rows.specs.Nodes.{node_of};
ghost use Rattle.type_parts.specs.Parts.{context_of};
ghost use Rattle.name_resolving.specs.Gives.{Gives};
ghost use Rattle.node_resolving.specs.Known.{ContextKnown};

use image::Tables;
use name_resolving::Resolution;
use name_resolving::rows::{not_made, refused_here};
use node_rows::NodeRow;
use nodes::resolve_node;
use part_resolving::fields::resolve_field;
use part_resolving::rests::resolve_rest;
use type_parts::PartContext;

// What becomes of a node, by what it is read at.
pub fn resolve(
    sheet: &[u8],
    tables: Tables,
    names: &[u8],
    spelled: &[u8],
    node: NodeRow,
    context: PartContext,
) -> Resolution
    requires { Whole sheet.now tables × NameBytesWithin names.now × (sheet_holds sheet.now ≡ true) × ContextKnown sheet.now (context_of context) }
    ensures { Gives spelled.now result node.parts (λ text. resolved sheet.now names.now node.at (node_of text spelled.now node) node.parts (context_of context)) }
{
    match context {
        PartContext::Typed(t, mode) => {
            resolve_node(sheet, tables, names, spelled, node, t, mode)
        }
        PartContext::RestAmong(t, others, mode) => {
            resolve_rest(sheet, tables, names, spelled, node, t, others, mode)
        }
        PartContext::FieldAt(t, v, mode) => {
            resolve_field(sheet, tables, names, spelled, node, t, v, mode)
        }
        PartContext::Partless => refused_here(node.parts, node.at),
        PartContext::Unseen => not_made(node.parts),
    }
}
