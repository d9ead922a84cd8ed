// The rows of the lent tables: nodes, and what is made of them.
ghost use Rattle.std.specs.Prelude.{◌≡◌, ◌*◌, ◌<◌, length};
ghost use Rattle.row_tables.specs.Rows.{stored};
ghost use Rattle.node_rows.specs.Nodes.{node_row_at};
ghost use Rattle.node_typing.specs.Rows.{making_words};

use node_rows::{MakingRow, NodeRow};
use row_tables::store_row;

// The node i.
pub fn node_at(nodes: &[u16], i: usize) -> NodeRow
    requires { (length nodes.now ≡ 114688) × (i < 16384) }
    ensures { result ≡ node_row_at nodes.now i }
{
    let at = 7 * i;
    NodeRow {
        kind: nodes[at],
        at: nodes[at + 1],
        parts: nodes[at + 2],
        more: nodes[at + 3],
        spot: nodes[at + 4],
        from: nodes[at + 5],
        to: nodes[at + 6],
    }
}

pub fn store_making(makings: &mut [u16], i: usize, row: MakingRow)
    requires { (length makings.old ≡ 196608) × (i < 16384) }
    ensures { makings.new ≡ stored makings.old (12 * i) (making_words row) }
{
    let words = [
        row.kind,
        row.parts,
        row.ty,
        row.derefs,
        row.a,
        row.b,
        row.c,
        row.from,
        row.to,
        row.element,
        row.many,
        row.copy,
    ];
    store_row(makings, 12 * i, &words);
}
