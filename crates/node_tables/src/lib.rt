// Rows of nodes in a lent table: one is read, or put.
#![tactic(auto)]

ghost use Rattle.std.specs.Prelude.{◌≡◌, ◌<◌, length};
ghost use Rattle.node_rows.specs.Nodes.{node_row_at};
ghost use Rattle.node_tables.specs.Tables.{Puts, row_kind};

use node_rows::{NODE_WORDS, NodeRow};

pub fn node_at(table: &[u16; NODE_WORDS], i: usize) -> NodeRow
    requires { i < 16384 }
    ensures { result ≡ node_row_at table.now i }
{
    NodeRow {
        kind: table[7 * i],
        at: table[7 * i + 1],
        parts: table[7 * i + 2],
        more: table[7 * i + 3],
        spot: table[7 * i + 4],
        from: table[7 * i + 5],
        to: table[7 * i + 6],
    }
}

// The kind of a row's node: 14 and what is above are all an Or.
pub fn kind_of(row: NodeRow) -> u16
    ensures { result ≡ row_kind row }
{
    let kind = row.kind;
    if kind < 14 {
        return kind;
    }
    14
}

fn put_words(table: &mut [u16], i: usize, row: NodeRow)
    requires { (i < 16384) × (length table.old ≡ 114688) }
    ensures { Puts table.old i row table.new }
{
    table[7 * i] = row.kind;
    table[7 * i + 1] = row.at;
    table[7 * i + 2] = row.parts;
    table[7 * i + 3] = row.more;
    table[7 * i + 4] = row.spot;
    table[7 * i + 5] = row.from;
    table[7 * i + 6] = row.to;
}

// The rows below stay as they are.
pub fn put_node(table: &mut [u16; NODE_WORDS], i: usize, row: NodeRow)
    requires { i < 16384 }
    ensures { Puts table.old i row table.new }
{
    put_words(table, i, row);
}
