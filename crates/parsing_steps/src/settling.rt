// An alternative has closed.
ghost use Rattle.std.specs.Prelude.{◌≡◌, ◌+◌, ◌<◌, ◌≤◌};
ghost use Rattle.parsing_steps.specs.Settling.{passes_by, grown_row, begun_row, PartsMost, Passes, BeginsLast, SettlesLast, Settles, Shuts};

use crate::Heights;
use node_rows::{NODE_WORDS, NodeRow};
use node_tables::{kind_of, node_at, put_node};

// A name with `@` or a reference closes with what it waits for.
fn passes(row: NodeRow) -> bool
    ensures { result ≡ passes_by row }
{
    let kind = kind_of(row);
    if kind == 7 {
        return true;
    }
    kind == 8
}

pub fn grown_row(row: NodeRow) -> NodeRow
    requires { row.parts < 65535 }
    ensures { result ≡ grown_row row }
{
    NodeRow {
        parts: row.parts + 1,
        ..row
    }
}

fn begun_row(at: u16, row: NodeRow) -> NodeRow
    ensures { result ≡ begun_row at row }
{
    NodeRow {
        kind: row.kind,
        at,
        parts: row.parts,
        more: row.more,
        spot: row.spot,
        from: row.from,
        to: row.to,
    }
}

// Names with `@` and references that wait innermost close.
fn pass(
    stack: &[u16; NODE_WORDS],
    nodes: &mut [u16; NODE_WORDS],
    depth: usize,
    rows: usize,
) -> Heights
    requires { (depth + rows ≤ 16384) × PartsMost 60001 stack.now depth }
    ensures { Passes stack.now nodes.old depth rows nodes.new result }
{
    let mut n = rows;
    for d in (0..depth).rev() {
        let f = node_at(stack, d);
        if !passes(f) {
            return Heights {
                depth: d + 1,
                rows: n,
            };
        }
        put_node(nodes, n, grown_row(f));
        n += 1;
    }
    Heights { depth: 0, rows: n }
}

// The last node begins at another byte.
pub fn begin_last(nodes: &mut [u16; NODE_WORDS], rows: usize, at: u16)
    requires { rows ≤ 16384 }
    ensures { BeginsLast nodes.old rows at nodes.new }
{
    if rows == 0 {
        return;
    }
    let w = node_at(nodes, rows - 1);
    put_node(nodes, rows - 1, begun_row(at, w));
}

// What waits innermost is a leading `|`, an Or, or stays as it is.
fn settle_last(
    stack: &mut [u16; NODE_WORDS],
    nodes: &mut [u16; NODE_WORDS],
    depth: usize,
    rows: usize,
) -> Heights
    requires { (depth + rows ≤ 16384) × PartsMost 60001 stack.old depth }
    ensures { SettlesLast stack.old nodes.old depth rows stack.new nodes.new result }
{
    if depth == 0 {
        return Heights { depth, rows };
    }
    let f = node_at(stack, depth - 1);
    if kind_of(f) != 14 {
        return Heights { depth, rows };
    }
    let at = f.at;
    let parts = f.parts;
    if parts == 0 {
        begin_last(nodes, rows, at);
        return Heights {
            depth: depth - 1,
            rows,
        };
    }
    put_node(stack, depth - 1, grown_row(f));
    Heights { depth, rows }
}

pub fn settle(
    stack: &mut [u16; NODE_WORDS],
    nodes: &mut [u16; NODE_WORDS],
    depth: usize,
    rows: usize,
) -> Heights
    requires { (depth + rows ≤ 16384) × PartsMost 60001 stack.old depth }
    ensures { Settles stack.old nodes.old depth rows stack.new nodes.new result }
{
    let h = pass(stack, nodes, depth, rows);
    let d = h.depth;
    let n = h.rows;
    settle_last(stack, nodes, d, n)
}

// A node closes above what waits below it.
pub fn shut(
    stack: &mut [u16; NODE_WORDS],
    nodes: &mut [u16; NODE_WORDS],
    below: usize,
    rows: usize,
    w: NodeRow,
) -> Heights
    requires { (below + rows < 16384) × PartsMost 60001 stack.old below }
    ensures { Shuts stack.old nodes.old below rows w stack.new nodes.new result }
{
    put_node(nodes, rows, w);
    settle(stack, nodes, below, rows + 1)
}
