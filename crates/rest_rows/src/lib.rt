// Where a rest and a range without an upper bound may stand, and what a list is behind its rest.
#![tactic(auto)]

ghost use Rattle.std.specs.Prelude.{◌≡◌, ◌<◌, ◌≤◌};
ghost use Rattle.rest_rows.specs.Rested.{counted_row, rested_row, takes_rest_row, rest_row, bars_open, FitsSlice, FitsRest};

use node_rows::{NODE_WORDS, NodeRow};
use node_tables::{kind_of, node_at};

// The parts that a list has so far stand before its rest.
fn counted_row(row: NodeRow, parts: u16) -> NodeRow
    ensures { result ≡ counted_row row parts }
{
    NodeRow {
        kind: row.kind,
        at: row.at,
        parts,
        more: row.parts,
        spot: row.spot,
        from: row.from,
        to: row.to,
    }
}

// A list whose next item is its rest, which is a part in a slice alone.
pub fn rested_row(row: NodeRow) -> NodeRow
    requires { row.parts < 65535 }
    ensures { result ≡ rested_row row }
{
    let kind = kind_of(row);
    let parts = row.parts;
    if kind == 11 {
        return counted_row(row, parts + 1);
    }
    if kind == 9 {
        return counted_row(row, parts);
    }
    if kind == 10 {
        return counted_row(row, parts);
    }
    row
}

pub fn rest_row(dots: u16) -> NodeRow
    ensures { result ≡ rest_row dots }
{
    NodeRow {
        kind: 1,
        at: dots,
        parts: 0,
        more: 0,
        spot: 0,
        from: 0,
        to: 0,
    }
}

// A list that has no rest so far.
fn takes_rest(row: NodeRow) -> bool
    ensures { result ≡ takes_rest_row row }
{
    let kind = kind_of(row);
    let more = row.more;
    if kind == 9 {
        return more == 65535;
    }
    if kind == 10 {
        return more == 65535;
    }
    if kind == 11 {
        return more == 65535;
    }
    false
}

// A slice that has no rest so far waits innermost.
fn slice_fits(stack: &[u16; NODE_WORDS], depth: usize) -> bool
    requires { depth ≤ 16384 }
    ensures { FitsSlice stack.now depth result }
{
    if depth == 0 {
        return false;
    }
    let f = node_at(stack, depth - 1);
    if kind_of(f) != 11 {
        return false;
    }
    f.more == 65535
}

// A rest may stand here: as a list's item, or in a slice behind a name and `@`.
pub fn rest_fits(stack: &[u16; NODE_WORDS], depth: usize) -> bool
    requires { depth ≤ 16384 }
    ensures { FitsRest stack.now depth result }
{
    if depth == 0 {
        return false;
    }
    let f = node_at(stack, depth - 1);
    if kind_of(f) == 7 {
        return slice_fits(stack, depth - 1);
    }
    takes_rest(f)
}

// A slice has no item without an upper bound.
pub fn bars_open(kind: u16, m: u16) -> bool
    ensures { result ≡ bars_open kind m }
{
    if kind != 11 {
        return false;
    }
    if m == 1 {
        return true;
    }
    m == 4
}
