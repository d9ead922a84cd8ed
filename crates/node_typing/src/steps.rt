// One row of the pass.
ghost use Rattle.std.specs.Prelude.{◌<◌};
ghost use Rattle.typing_state.specs.Parents.{stack_of};
ghost use Rattle.node_typing.specs.Rows.{Sized, Typing, RowTyped, StackKnown};

use crate::tables::{node_at, store_making};
use image::Tables;
use node_resolving::resolve;
use typing_state::stack::{leave_part, next_context, wait_for};

// How many parents wait, and the position at which the row is refused, if it is.
#[derive(Clone, Copy)]
pub struct TypedRow {
    pub depth: usize,
    pub refused: Option<u16>,
}

// The row i, with so many parents waiting.
pub fn type_row(
    sheet: &[u8],
    tables: Tables,
    names: &[u8],
    spelled: &[u8],
    nodes: &[u16],
    makings: &mut [u16],
    waiting: &mut [u16],
    i: usize,
    depth: usize,
) -> TypedRow
    requires { Typing sheet.now tables names.now × Sized nodes.now makings.old waiting.old × (i < 16384) × (depth < 16385) × StackKnown sheet.now (stack_of waiting.old depth) }
    ensures { RowTyped sheet.now names.now spelled.now nodes.now i makings.old makings.new (stack_of waiting.old depth) waiting.new depth result }
{
    let node = node_at(nodes, i);
    let context = next_context(sheet, tables, waiting, depth);
    let resolution = resolve(sheet, tables, names, spelled, node, context);
    store_making(makings, i, resolution.making);
    let behind = leave_part(waiting, depth);
    let next = wait_for(waiting, behind, resolution.reads, node.parts);
    let refused = resolution.refused;
    TypedRow {
        depth: next,
        refused: refused,
    }
}
