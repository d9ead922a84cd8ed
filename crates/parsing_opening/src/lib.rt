// Moves of the machine behind which something is held or waits, made on the tables.
#![tactic(auto)]

ghost use Rattle.std.specs.Prelude.{◌≡◌, ◌+◌, ◌<◌, ◌≤◌};
ghost use Rattle.parsing_moves.specs.declared.NodeMove.TheVariants.{Opens, OpensTwo, OpensBehind, Mutates, AddsField};
ghost use Rattle.parsing_steps.specs.Settling.{PartsMost};
ghost use Rattle.parsing_steps.specs.declared.ParseStep.TheVariants.{Going};
ghost use Rattle.parsing_steps.specs.Moving.{PerformsAny, PerformsOver};

use node_rows::{NODE_WORDS, NodeRow};
use node_tables::put_node;
use parsing_machine::ReadState;
use parsing_moves::HeldRow;
use parsing_rests::ranges::mutate;
use parsing_steps::ending::{going_on, grow_top};
use parsing_steps::{Heights, ParseState, ParseStep};

// Something is held.
pub fn hold(state: ReadState, held: HeldRow, depth: usize, rows: usize) -> ParseStep
    ensures { result ≡ Going (record { state = state; held = held; depth = depth; rows = rows }) }
{
    ParseStep::Going(ParseState {
        state,
        held,
        depth,
        rows,
    })
}

// A node waits.
pub fn open_node(
    stack: &mut [u16; NODE_WORDS],
    depth: usize,
    rows: usize,
    state: ReadState,
    f: NodeRow,
) -> ParseStep
    requires { depth + rows < 16384 }
    ensures { PerformsOver stack.old depth rows (Opens state f) stack.new result }
{
    put_node(stack, depth, f);
    going_on(
        state,
        Heights {
            depth: depth + 1,
            rows,
        },
    )
}

// Two nodes wait.
pub fn open_two(
    stack: &mut [u16; NODE_WORDS],
    depth: usize,
    rows: usize,
    f: NodeRow,
    g: NodeRow,
) -> ParseStep
    requires { depth + rows + 2 ≤ 16384 }
    ensures { PerformsOver stack.old depth rows (OpensTwo f g) stack.new result }
{
    put_node(stack, depth, f);
    open_node(stack, depth + 1, rows, ReadState::BehindAmp, g)
}

// A node closes, and another waits.
pub fn open_behind(
    stack: &mut [u16; NODE_WORDS],
    nodes: &mut [u16; NODE_WORDS],
    depth: usize,
    rows: usize,
    state: ReadState,
    w: NodeRow,
    f: NodeRow,
) -> ParseStep
    requires { depth + rows + 2 ≤ 16384 }
    ensures { PerformsAny stack.old nodes.old depth rows (OpensBehind state w f) stack.new nodes.new result }
{
    put_node(nodes, rows, w);
    open_node(stack, depth, rows + 1, state, f)
}

// What waits is `&mut`.
pub fn make_mut(stack: &mut [u16; NODE_WORDS], depth: usize, rows: usize) -> ParseStep
    requires { depth ≤ 16384 }
    ensures { PerformsOver stack.old depth rows Mutates stack.new result }
{
    mutate(stack, depth);
    going_on(ReadState::Expect, Heights { depth, rows })
}

// A name alone is a field, and another follows.
pub fn add_field(
    stack: &mut [u16; NODE_WORDS],
    nodes: &mut [u16; NODE_WORDS],
    depth: usize,
    rows: usize,
    w: NodeRow,
    f: NodeRow,
) -> ParseStep
    requires { (depth + rows + 2 ≤ 16384) × PartsMost 30001 stack.old depth }
    ensures { PerformsAny stack.old nodes.old depth rows (AddsField w f) stack.new nodes.new result }
{
    put_node(nodes, rows, w);
    put_node(nodes, rows + 1, f);
    grow_top(stack, depth);
    going_on(
        ReadState::AtBrace,
        Heights {
            depth,
            rows: rows + 2,
        },
    )
}
