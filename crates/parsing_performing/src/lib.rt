// A move of the machine, by a mark at a position, is made on the tables.
#![tactic(auto)]

ghost use Rattle.std.specs.Prelude.{◌+◌, ◌≤◌};
ghost use Rattle.parsing_steps.specs.Settling.{PartsMost};
ghost use Rattle.parsing_performing.specs.Performing.{move_gain, Performed};

use node_rows::NODE_WORDS;
use parsing_behind::behind_alt;
use parsing_closing::{add_last_field, shut_node, shut_range, shut_range_before, shut_top};
use parsing_moves::NodeMove;
use parsing_opening::{add_field, hold, make_mut, open_behind, open_node, open_two};
use parsing_rests::ranges::{open_range, shut_before};
use parsing_rests::resting::rest_read;
use parsing_steps::ParseStep;

pub fn perform(
    stack: &mut [u16; NODE_WORDS],
    nodes: &mut [u16; NODE_WORDS],
    depth: usize,
    rows: usize,
    made: NodeMove,
    m: u16,
    at: u16,
) -> ParseStep
    requires { (depth + rows + move_gain made m ≤ 16384) × PartsMost 30001 stack.old depth }
    ensures { Performed stack.old nodes.old depth rows made m at stack.new nodes.new result }
{
    match made {
        NodeMove::Halts(place) => ParseStep::Halted(place),
        NodeMove::Holds(state, held) => hold(state, held, depth, rows),
        NodeMove::Opens(state, f) => open_node(stack, depth, rows, state, f),
        NodeMove::OpensTwo(f, g) => open_two(stack, depth, rows, f, g),
        NodeMove::OpensBehind(state, w, f) => open_behind(stack, nodes, depth, rows, state, w, f),
        NodeMove::Mutates => make_mut(stack, depth, rows),
        NodeMove::Shuts(w) => shut_node(stack, nodes, depth, rows, w),
        NodeMove::ShutsBefore(w) => shut_before(stack, nodes, depth, rows, w, m, at),
        NodeMove::ShutsRange(w) => shut_range(stack, nodes, depth, rows, w),
        NodeMove::ShutsRangeBefore(w) => shut_range_before(stack, nodes, depth, rows, w, m, at),
        NodeMove::ShutsOpenRange => open_range(stack, nodes, depth, rows, m, at),
        NodeMove::ShutsRest => rest_read(stack, nodes, depth, rows, m, at),
        NodeMove::PassesOn => behind_alt(stack, nodes, depth, rows, m, at),
        NodeMove::ShutsTop => shut_top(stack, nodes, depth, rows),
        NodeMove::AddsField(w, f) => add_field(stack, nodes, depth, rows, w, f),
        NodeMove::AddsLastField(w, f) => add_last_field(stack, nodes, depth, rows, w, f),
    }
}
