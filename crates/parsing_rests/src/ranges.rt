// A range without an upper bound, an alternative that closes before a mark, and `mut` behind `&`.
ghost use Rattle.std.specs.Prelude.{◌≡◌, ◌+◌, ◌<◌, ◌≤◌};
ghost use Rattle.parsing_bounds.specs.Weights.{or_one};
ghost use Rattle.parsing_steps.specs.Settling.{PartsMost};
ghost use Rattle.rest_rows.specs.Rested.{open_row, mutated_row};
ghost use Rattle.parsing_rests.specs.Resting.{ShutsBefore, OpensRange, MutatesTop};

use node_rows::{NODE_WORDS, NodeRow};
use node_tables::{node_at, put_node};
use parsing_behind::{behind_alt, top_kind};
use parsing_steps::ParseStep;
use parsing_steps::settling::shut;
use rest_rows::bars_open;

// An alternative closes above what waits below it; the mark stands behind it.
pub fn shut_before(
    stack: &mut [u16; NODE_WORDS],
    nodes: &mut [u16; NODE_WORDS],
    below: usize,
    rows: usize,
    w: NodeRow,
    m: u16,
    at: u16,
) -> ParseStep
    requires { (below + rows + 1 + or_one m ≤ 16384) × PartsMost 30001 stack.old below }
    ensures { ShutsBefore stack.old nodes.old below rows w m at stack.new nodes.new result }
{
    let h = shut(stack, nodes, below, rows, w);
    let d = h.depth;
    let n = h.rows;
    behind_alt(stack, nodes, d, n, m, at)
}

// A range behind its lower bound, with `..` and nothing behind it.
fn open_row(at: u16) -> NodeRow
    ensures { result ≡ open_row at }
{
    NodeRow {
        kind: 5,
        at,
        parts: 1,
        more: 1,
        spot: 0,
        from: 1,
        to: 0,
    }
}

pub fn open_range(
    stack: &mut [u16; NODE_WORDS],
    nodes: &mut [u16; NODE_WORDS],
    depth: usize,
    rows: usize,
    m: u16,
    at: u16,
) -> ParseStep
    requires { (depth + rows + or_one m ≤ 16384) × PartsMost 30001 stack.old depth }
    ensures { OpensRange stack.old nodes.old depth rows m at stack.new nodes.new result }
{
    if depth == 0 {
        return ParseStep::Halted(at);
    }
    let f = node_at(stack, depth - 1);
    let from = f.at;
    if bars_open(top_kind(stack, depth - 1), m) {
        return ParseStep::Halted(from);
    }
    shut_before(stack, nodes, depth - 1, rows, open_row(from), m, at)
}

fn mutated_row(row: NodeRow) -> NodeRow
    ensures { result ≡ mutated_row row }
{
    NodeRow {
        kind: 8,
        at: row.at,
        parts: row.parts,
        more: 1,
        spot: 0,
        from: 0,
        to: 0,
    }
}

// What waits innermost is `&mut`.
pub fn mutate(stack: &mut [u16; NODE_WORDS], depth: usize)
    requires { depth ≤ 16384 }
    ensures { MutatesTop stack.old depth stack.new }
{
    if depth == 0 {
        return;
    }
    let f = node_at(stack, depth - 1);
    put_node(stack, depth - 1, mutated_row(f));
}
