// A mark with which a pattern begins, or a bound.
ghost use Rattle.std.specs.Prelude.{◌≡◌, ◌+◌, ◌*◌, ◌^◌, ◌<◌, ltb};
ghost use Rattle.pattern_grammar.specs.Lexemes.{wide, strictly};
ghost use Rattle.parsing_moves.specs.Rows.{DecidesStart, DecidesBound, DecidesDots, DecidesWhole, DecidesWholeBound, DecidesClosing, spot_of, over_in};

use crate::NodeMove;
use crate::makers::{holds_flags, holds_literal, literal_row, opens_row, two_references};
use decimal_values::integer_value;
use parsing_machine::ReadState;

// 2^127 is below a value in halves.
fn over_halves(low: u64, high: u64) -> bool
    ensures { result ≡ ltb (2 ^ 127) (high * 2 ^ 64 + low) }
{
    if high == 0x8000_0000_0000_0000 {
        return 0 < low;
    }
    0x8000_0000_0000_0000 < high
}

// An integer's value is over 16 bytes.
fn is_over(value: Option<(u64, u64)>, minus: bool) -> bool
    ensures { result ≡ over_in minus value }
{
    match value {
        None => true,
        Some((low, high)) => {
            if !minus {
                return false;
            }
            over_halves(low, high)
        }
    }
}

pub fn is_wide(text: &[u8], minus: bool, from: u16, to: u16) -> bool
    ensures { result ≡ wide (strictly text.now) minus (spot_of from to) }
{
    is_over(integer_value(text, from as usize, to as usize), minus)
}

// Dots: a range's, or a rest; not behind `&`.
fn dots_move(top: u16, state: ReadState, exclusive: u16, at: u16) -> NodeMove
    ensures { DecidesDots top state exclusive at result }
{
    if top == 8 {
        return NodeMove::Halts(at);
    }
    opens_row(state, 5, at, exclusive, 1)
}

fn whole_move(text: &[u8], from: u16, to: u16) -> NodeMove
    ensures { DecidesWhole text.now from to result }
{
    if is_wide(text, false, from, to) {
        return NodeMove::Halts(from);
    }
    holds_literal(from, 3, from, to)
}

fn whole_bound(text: &[u8], from: u16, to: u16) -> NodeMove
    ensures { DecidesWholeBound text.now from to result }
{
    if is_wide(text, false, from, to) {
        return NodeMove::Halts(from);
    }
    NodeMove::ShutsRange(literal_row(3, from, 3, from, to))
}

pub fn start_move(text: &[u8], top: u16, m: u16, from: u16, to: u16) -> NodeMove
    requires { from < 65535 }
    ensures { DecidesStart text.now top m from to result }
{
    match m {
        6 => holds_flags(ReadState::BehindRef, from, 1),
        7 => holds_flags(ReadState::BehindMut, from, 2),
        8 => holds_literal(from, 1, 0, 0),
        9 => holds_literal(from, 0, 0, 0),
        10 => NodeMove::Shuts(literal_row(0, from, 0, 0, 0)),
        11 => whole_move(text, from, to),
        12 => holds_flags(ReadState::AtMinus, from, 0),
        13 => opens_row(ReadState::Begin, 9, from, 65535, 0),
        14 => opens_row(ReadState::Begin, 11, from, 65535, 0),
        16 => opens_row(ReadState::BehindAmp, 8, from, 0, 0),
        17 => two_references(from),
        21 => dots_move(top, ReadState::AtDots, 1, from),
        22 => dots_move(top, ReadState::AtTo, 0, from),
        _ => NodeMove::Halts(from),
    }
}

// A mark with which an upper bound begins, or another move.
pub fn bound_move(text: &[u8], m: u16, from: u16, to: u16, other: NodeMove) -> NodeMove
    ensures { DecidesBound text.now m from to other result }
{
    match m {
        8 => NodeMove::ShutsRange(literal_row(3, from, 1, 0, 0)),
        9 => NodeMove::ShutsRange(literal_row(3, from, 0, 0, 0)),
        11 => whole_bound(text, from, to),
        12 => holds_flags(ReadState::AtMinus, from, 0),
        _ => other,
    }
}

// A closing mark where a pattern may begin.
pub fn closing_move(top: u16, m: u16, from: u16) -> NodeMove
    ensures { DecidesClosing top m from result }
{
    if top == 11 {
        if m == 4 {
            return NodeMove::ShutsTop;
        }
        return NodeMove::Halts(from);
    }
    if m != 3 {
        return NodeMove::Halts(from);
    }
    if top == 9 {
        return NodeMove::ShutsTop;
    }
    if top == 10 {
        return NodeMove::ShutsTop;
    }
    NodeMove::Halts(from)
}
