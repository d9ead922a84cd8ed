// A mark behind a pattern: in the item or the field that waits for it, and behind an alternative.
#![tactic(auto)]

ghost use Rattle.std.specs.Prelude.{◌≡◌, ◌+◌, ◌<◌, ◌≤◌};
ghost use Rattle.parsing_bounds.specs.Weights.{or_one};
ghost use Rattle.parsing_steps.specs.Settling.{PartsMost};
ghost use Rattle.parsing_steps.specs.Stepping.{is_bare_row, EndsItem, EndsInItem, EndsInField};
ghost use Rattle.parsing_behind.specs.Behind.{or_row, InnermostIs, LastIs, AnotherWaits, EndsIn, StandsBehind};

use node_rows::{NODE_WORDS, NodeRow};
use node_tables::{kind_of, node_at, put_node};
use parsing_machine::ReadState;
use parsing_steps::ending::{closes_list, going_on, grow_top, shut_grown};
use parsing_steps::settling::{begin_last, grown_row, settle, shut};
use parsing_steps::{Heights, ParseStep};

// The kind of what waits innermost, 15 where nothing does.
pub fn top_kind(stack: &[u16; NODE_WORDS], depth: usize) -> u16
    requires { depth ≤ 16384 }
    ensures { InnermostIs stack.now depth result }
{
    if depth == 0 {
        return 15;
    }
    kind_of(node_at(stack, depth - 1))
}

// Where the last node begins.
fn last_from(nodes: &[u16; NODE_WORDS], rows: usize) -> u16
    requires { rows ≤ 16384 }
    ensures { LastIs nodes.now rows result }
{
    if rows == 0 {
        return 0;
    }
    let w = node_at(nodes, rows - 1);
    w.at
}

fn or_row(at: u16) -> NodeRow
    ensures { result ≡ or_row at }
{
    NodeRow {
        kind: 14,
        at,
        parts: 1,
        more: 0,
        spot: 0,
        from: 0,
        to: 0,
    }
}

// Another alternative follows: an Or waits.
fn another(
    stack: &mut [u16; NODE_WORDS],
    nodes: &[u16; NODE_WORDS],
    depth: usize,
    rows: usize,
) -> Heights
    requires { depth + rows < 16384 }
    ensures { AnotherWaits stack.old nodes.now depth rows stack.new result }
{
    if top_kind(stack, depth) == 14 {
        return Heights { depth, rows };
    }
    let at = last_from(nodes, rows);
    put_node(stack, depth, or_row(at));
    Heights {
        depth: depth + 1,
        rows,
    }
}

// `(` with nothing behind it but one pattern.
fn is_bare(row: NodeRow) -> bool
    ensures { result ≡ is_bare_row row }
{
    let kind = kind_of(row);
    if kind != 9 {
        return false;
    }
    if row.more != 65535 {
        return false;
    }
    row.parts == 0
}

// The item is the last of its list; one pattern in parentheses is itself, from the `(` on.
fn item_last(
    stack: &mut [u16; NODE_WORDS],
    nodes: &mut [u16; NODE_WORDS],
    below: usize,
    rows: usize,
    f: NodeRow,
) -> Heights
    requires { (below + rows < 16384) × PartsMost 60001 stack.old below × (f.parts < 65535) }
    ensures { EndsItem stack.old nodes.old below rows f stack.new nodes.new result }
{
    if is_bare(f) {
        let at = f.at;
        begin_last(nodes, rows, at);
        return settle(stack, nodes, below, rows);
    }
    shut(stack, nodes, below, rows, grown_row(f))
}

// A mark behind a list's item.
pub fn ended_item(
    stack: &mut [u16; NODE_WORDS],
    nodes: &mut [u16; NODE_WORDS],
    below: usize,
    rows: usize,
    f: NodeRow,
    m: u16,
    at: u16,
) -> ParseStep
    requires { (below + rows < 16384) × PartsMost 60001 stack.old below × (f.parts < 65535) }
    ensures { EndsInItem stack.old nodes.old below rows f m at stack.new nodes.new result }
{
    if m == 1 {
        put_node(stack, below, grown_row(f));
        return going_on(
            ReadState::Begin,
            Heights {
                depth: below + 1,
                rows,
            },
        );
    }
    if closes_list(kind_of(f), m) {
        return going_on(ReadState::AtAlt, item_last(stack, nodes, below, rows, f));
    }
    ParseStep::Halted(at)
}

// A mark behind a field's pattern.
pub fn ended_field(
    stack: &mut [u16; NODE_WORDS],
    nodes: &mut [u16; NODE_WORDS],
    below: usize,
    rows: usize,
    f: NodeRow,
    m: u16,
    at: u16,
) -> ParseStep
    requires { (below + rows < 16384) × PartsMost 60001 stack.old below × (f.parts < 65535) }
    ensures { EndsInField stack.old nodes.old below rows f m at stack.new nodes.new result }
{
    if m == 1 {
        put_node(nodes, rows, grown_row(f));
        grow_top(stack, below);
        return going_on(
            ReadState::AtBrace,
            Heights {
                depth: below,
                rows: rows + 1,
            },
        );
    }
    if m == 5 {
        put_node(nodes, rows, grown_row(f));
        return going_on(ReadState::AtAlt, shut_grown(stack, nodes, below, rows + 1));
    }
    ParseStep::Halted(at)
}

// A mark but `|` behind a pattern.
fn ended(
    stack: &mut [u16; NODE_WORDS],
    nodes: &mut [u16; NODE_WORDS],
    depth: usize,
    rows: usize,
    m: u16,
    at: u16,
) -> ParseStep
    requires { (depth + rows ≤ 16384) × PartsMost 60001 stack.old depth }
    ensures { EndsIn stack.old nodes.old depth rows m at stack.new nodes.new result }
{
    if depth == 0 {
        if m == 0 {
            return ParseStep::Ended(rows);
        }
        return ParseStep::Halted(at);
    }
    let f = node_at(stack, depth - 1);
    if kind_of(f) == 13 {
        return ended_field(stack, nodes, depth - 1, rows, f, m, at);
    }
    ended_item(stack, nodes, depth - 1, rows, f, m, at)
}

pub fn behind_alt(
    stack: &mut [u16; NODE_WORDS],
    nodes: &mut [u16; NODE_WORDS],
    depth: usize,
    rows: usize,
    m: u16,
    at: u16,
) -> ParseStep
    requires { (depth + rows + or_one m ≤ 16384) × PartsMost 60001 stack.old depth }
    ensures { StandsBehind stack.old nodes.old depth rows m at stack.new nodes.new result }
{
    if m == 2 {
        return going_on(ReadState::Expect, another(stack, nodes, depth, rows));
    }
    if top_kind(stack, depth) != 14 {
        return ended(stack, nodes, depth, rows, m, at);
    }
    let f = node_at(stack, depth - 1);
    put_node(nodes, rows, f);
    ended(stack, nodes, depth - 1, rows + 1, m, at)
}
