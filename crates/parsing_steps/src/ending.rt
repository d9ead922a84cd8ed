// What a mark behind a pattern makes of what waits for it.
ghost use Rattle.std.specs.Prelude.{◌≡◌, ◌+◌, ◌≤◌};
ghost use Rattle.parsing_machine.specs.Waiting.{closes};
ghost use Rattle.parsing_steps.specs.Settling.{PartsMost};
ghost use Rattle.parsing_steps.specs.Stepping.{going_on, GrowsTop, ShutsGrown};

use crate::settling::{grown_row, shut};
use crate::{Heights, ParseState, ParseStep};
use node_rows::NODE_WORDS;
use node_tables::{node_at, put_node};
use parsing_machine::ReadState;
use parsing_moves::HeldRow;

// It goes on in a state that holds nothing.
pub fn going_on(state: ReadState, h: Heights) -> ParseStep
    ensures { result ≡ going_on state h }
{
    let depth = h.depth;
    let rows = h.rows;
    ParseStep::Going(ParseState {
        state,
        held: HeldRow {
            at: 0,
            more: 0,
            spot: 0,
            from: 0,
            to: 0,
        },
        depth,
        rows,
    })
}

// A mark closes a list of this kind.
pub fn closes_list(kind: u16, m: u16) -> bool
    ensures { result ≡ closes kind m }
{
    if kind == 11 {
        return m == 4;
    }
    if m != 3 {
        return false;
    }
    if kind == 9 {
        return true;
    }
    kind == 10
}

// What waits innermost has a part more.
pub fn grow_top(stack: &mut [u16; NODE_WORDS], depth: usize)
    requires { (depth ≤ 16384) × PartsMost 60001 stack.old depth }
    ensures { GrowsTop stack.old depth stack.new }
{
    if depth == 0 {
        return;
    }
    let f = node_at(stack, depth - 1);
    put_node(stack, depth - 1, grown_row(f));
}

// What waits innermost closes with a part more.
pub fn shut_grown(
    stack: &mut [u16; NODE_WORDS],
    nodes: &mut [u16; NODE_WORDS],
    depth: usize,
    rows: usize,
) -> Heights
    requires { (depth + rows ≤ 16384) × PartsMost 60001 stack.old depth }
    ensures { ShutsGrown stack.old nodes.old depth rows stack.new nodes.new result }
{
    if depth == 0 {
        return Heights { depth, rows };
    }
    let f = node_at(stack, depth - 1);
    shut(stack, nodes, depth - 1, rows, grown_row(f))
}
