// `..` that no bound follows.
ghost use Rattle.std.specs.Prelude.{◌+◌, ◌<◌, ◌≤◌};
ghost use Rattle.parsing_steps.specs.Settling.{PartsMost};
ghost use Rattle.parsing_rests.specs.Resting.{NotesRest, RestsItem, RestsIn, RestsRead};

use node_rows::NODE_WORDS;
use node_tables::{kind_of, node_at, put_node};
use parsing_machine::ReadState;
use parsing_steps::ending::{closes_list, going_on};
use parsing_steps::settling::{grown_row, shut};
use parsing_steps::{Heights, ParseStep};
use rest_rows::{rest_fits, rest_row, rested_row};

// A mark behind a list's rest.
pub fn rest_item(
    stack: &mut [u16; NODE_WORDS],
    nodes: &mut [u16; NODE_WORDS],
    depth: usize,
    rows: usize,
    m: u16,
    at: u16,
) -> ParseStep
    requires { (depth + rows ≤ 16384) × PartsMost 60001 stack.old depth }
    ensures { RestsItem stack.old nodes.old depth rows m at stack.new nodes.new result }
{
    if depth == 0 {
        return ParseStep::Halted(at);
    }
    let f = node_at(stack, depth - 1);
    if m == 1 {
        put_node(stack, depth - 1, rested_row(f));
        return going_on(ReadState::Begin, Heights { depth, rows });
    }
    if closes_list(kind_of(f), m) {
        return going_on(
            ReadState::AtAlt,
            shut(stack, nodes, depth - 1, rows, rested_row(f)),
        );
    }
    ParseStep::Halted(at)
}

// In a slice a rest is a node, behind a name and `@` or not; in a tuple it is none.
fn note_rest(
    stack: &[u16; NODE_WORDS],
    nodes: &mut [u16; NODE_WORDS],
    depth: usize,
    rows: usize,
    dots: u16,
) -> Heights
    requires { (depth + rows < 16384) × PartsMost 60001 stack.now depth }
    ensures { NotesRest stack.now nodes.old depth rows dots nodes.new result }
{
    if depth == 0 {
        return Heights { depth, rows };
    }
    let f = node_at(stack, depth - 1);
    let kind = kind_of(f);
    if kind == 7 {
        put_node(nodes, rows, rest_row(dots));
        put_node(nodes, rows + 1, grown_row(f));
        return Heights {
            depth: depth - 1,
            rows: rows + 2,
        };
    }
    if kind == 11 {
        put_node(nodes, rows, rest_row(dots));
        return Heights {
            depth,
            rows: rows + 1,
        };
    }
    Heights { depth, rows }
}

pub fn rest_in(
    stack: &mut [u16; NODE_WORDS],
    nodes: &mut [u16; NODE_WORDS],
    depth: usize,
    rows: usize,
    dots: u16,
    m: u16,
    at: u16,
) -> ParseStep
    requires { (depth + rows < 16384) × PartsMost 60001 stack.old depth }
    ensures { RestsIn stack.old nodes.old depth rows dots m at stack.new nodes.new result }
{
    let h = note_rest(stack, nodes, depth, rows, dots);
    let d = h.depth;
    let n = h.rows;
    rest_item(stack, nodes, d, n, m, at)
}

// It waits as a range's beginning.
pub fn rest_read(
    stack: &mut [u16; NODE_WORDS],
    nodes: &mut [u16; NODE_WORDS],
    depth: usize,
    rows: usize,
    m: u16,
    at: u16,
) -> ParseStep
    requires { (depth + rows ≤ 16384) × PartsMost 60001 stack.old depth }
    ensures { RestsRead stack.old nodes.old depth rows m at stack.new nodes.new result }
{
    if depth == 0 {
        return ParseStep::Halted(at);
    }
    let f = node_at(stack, depth - 1);
    let dots = f.at;
    if m == 2 {
        return ParseStep::Halted(dots);
    }
    if rest_fits(stack, depth - 1) {
        return rest_in(stack, nodes, depth - 1, rows, dots, m, at);
    }
    ParseStep::Halted(dots)
}
