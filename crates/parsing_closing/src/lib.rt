// Moves of the machine behind which a node has closed, made on the tables.
#![tactic(auto)]

ghost use Rattle.std.specs.Prelude.{◌+◌, ◌<◌, ◌≤◌};
ghost use Rattle.parsing_bounds.specs.Weights.{or_one};
ghost use Rattle.parsing_moves.specs.declared.NodeMove.TheVariants.{Shuts, ShutsRange, ShutsRangeBefore, ShutsTop, AddsLastField};
ghost use Rattle.parsing_steps.specs.Settling.{PartsMost};
ghost use Rattle.parsing_steps.specs.Moving.{PerformsMove, PerformsAny};

use node_rows::{NODE_WORDS, NodeRow};
use node_tables::{node_at, put_node};
use parsing_behind::behind_alt;
use parsing_machine::ReadState;
use parsing_steps::ending::{going_on, shut_grown};
use parsing_steps::settling::shut;
use parsing_steps::{Heights, ParseStep};

// An alternative closes.
pub fn shut_node(
    stack: &mut [u16; NODE_WORDS],
    nodes: &mut [u16; NODE_WORDS],
    depth: usize,
    rows: usize,
    w: NodeRow,
) -> ParseStep
    requires { (depth + rows < 16384) × PartsMost 30001 stack.old depth }
    ensures { PerformsAny stack.old nodes.old depth rows (Shuts w) stack.new nodes.new result }
{
    going_on(ReadState::AtAlt, shut(stack, nodes, depth, rows, w))
}

// What waits innermost closes.
pub fn shut_top(
    stack: &mut [u16; NODE_WORDS],
    nodes: &mut [u16; NODE_WORDS],
    depth: usize,
    rows: usize,
) -> ParseStep
    requires { (depth + rows ≤ 16384) × PartsMost 30001 stack.old depth }
    ensures { PerformsAny stack.old nodes.old depth rows ShutsTop stack.new nodes.new result }
{
    if depth == 0 {
        return going_on(ReadState::AtAlt, Heights { depth, rows });
    }
    let f = node_at(stack, depth - 1);
    shut_node(stack, nodes, depth - 1, rows, f)
}

// A bound closes, and its range.
pub fn shut_range(
    stack: &mut [u16; NODE_WORDS],
    nodes: &mut [u16; NODE_WORDS],
    depth: usize,
    rows: usize,
    w: NodeRow,
) -> ParseStep
    requires { (depth + rows < 16384) × PartsMost 30001 stack.old depth }
    ensures { PerformsAny stack.old nodes.old depth rows (ShutsRange w) stack.new nodes.new result }
{
    put_node(nodes, rows, w);
    going_on(ReadState::AtAlt, shut_grown(stack, nodes, depth, rows + 1))
}

// A name alone is the last field.
pub fn add_last_field(
    stack: &mut [u16; NODE_WORDS],
    nodes: &mut [u16; NODE_WORDS],
    depth: usize,
    rows: usize,
    w: NodeRow,
    f: NodeRow,
) -> ParseStep
    requires { (depth + rows + 2 ≤ 16384) × PartsMost 30001 stack.old depth }
    ensures { PerformsAny stack.old nodes.old depth rows (AddsLastField w f) stack.new nodes.new result }
{
    put_node(nodes, rows, w);
    shut_range(stack, nodes, depth, rows + 1, f)
}

// A bound closes, and its range; the mark stands behind it.
pub fn shut_range_before(
    stack: &mut [u16; NODE_WORDS],
    nodes: &mut [u16; NODE_WORDS],
    depth: usize,
    rows: usize,
    w: NodeRow,
    m: u16,
    at: u16,
) -> ParseStep
    requires { (depth + rows + 1 + or_one m ≤ 16384) × PartsMost 30001 stack.old depth }
    ensures { PerformsMove stack.old nodes.old depth rows (ShutsRangeBefore w) m at stack.new nodes.new result }
{
    put_node(nodes, rows, w);
    let h = shut_grown(stack, nodes, depth, rows + 1);
    let d = h.depth;
    let n = h.rows;
    behind_alt(stack, nodes, d, n, m, at)
}
