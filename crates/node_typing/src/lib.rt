// The downward pass over the rows of nodes, from the last to the first: each is read at a context that its parent left, what is made of it is
// written to the row of the same number, and the first position that is refused is kept.
#![tactic(auto)]

pub mod steps; // steps.rt: one row
pub mod tables; // tables.rt: the rows of the lent tables

ghost use Rattle.std.specs.Prelude.{◌≡◌, true, ◌<◌, ◌≤◌};
ghost use Rattle.image.specs.Tables.{Whole, type_count};
ghost use Rattle.type_sheets.specs.Sheets.{sheet_holds};
ghost use Rattle.name_tables.specs.Names.{names_hold};
ghost use Rattle.node_typing.specs.Rows.{Sized, Typing, NodesTyped, PatternTyped, starts_at};

use image::Tables;
use name_resolving::rows::same_parts;
use node_rows::TEXT_BYTES;
use steps::type_row;
use typing_state::refused::first_refused;
use typing_state::stack::wait_for;

// A parent that waits: how its parts are read, and how many of them are left. There is one for each node at most, and one for the root.
pub const WAITING_WIDTH: usize = 7;

pub const WAITING_WORDS: usize = WAITING_WIDTH * (TEXT_BYTES + 1);

// The rows below n, the last first, with so many parents waiting. The first position that is refused, or none.
fn type_rows(
    sheet: &[u8],
    tables: Tables,
    names: &[u8],
    spelled: &[u8],
    nodes: &[u16],
    n: usize,
    makings: &mut [u16],
    waiting: &mut [u16],
    first: usize,
) -> Option<u16>
    requires { Typing sheet.now tables names.now × Sized nodes.now makings.old waiting.old × (n ≤ 16384) × starts_at sheet.now waiting.old first }
    ensures { NodesTyped sheet.now names.now spelled.now nodes.now n waiting.old first makings.new result }
{
    let mut refused = None;
    let mut depth = first;
    for i in (0..n).rev() {
        let row = type_row(
            sheet, tables, names, spelled, nodes, makings, waiting, i, depth,
        );
        depth = row.depth;
        let own = row.refused;
        refused = first_refused(own, refused);
    }
    refused
}

// The rows of nodes, read at the expected type. The first position that is refused, or none.
pub fn type_nodes(
    sheet: &[u8],
    tables: Tables,
    names: &[u8],
    spelled: &[u8],
    nodes: &[u16],
    n: usize,
    expected: u16,
    makings: &mut [u16],
    waiting: &mut [u16],
) -> Option<u16>
    requires { Whole sheet.now tables × (sheet_holds sheet.now ≡ true) × (names_hold sheet.now names.now ≡ true) × (expected < type_count sheet.now) × (n ≤ 16384) × Sized nodes.now makings.old waiting.old }
    ensures { PatternTyped sheet.now names.now spelled.now nodes.now n expected makings.new result }
{
    let first = wait_for(waiting, 0, same_parts(expected, 0), 1);
    type_rows(
        sheet, tables, names, spelled, nodes, n, makings, waiting, first,
    )
}
