// What the parser does at a mark in one of the states that hold nothing, a flag or a sign.
#![tactic(auto)]

ghost use Rattle.std.specs.Prelude.{◌<◌};
ghost use Rattle.parsing_machine.specs.declared.ReadState.TheVariants.{Begin, BehindAmp, BehindRef, AtFrom, AtEtc};
ghost use Rattle.parsing_moves.specs.Rows.{DecidesIn, DecidesHeld, DecidesMinus, DecidesIndex, DecidesBrace};

use parsing_machine::ReadState;
use parsing_moves::makers::{holds_flags, holds_literal, literal_row, opens_row};
use parsing_moves::starts::{bound_move, closing_move, is_wide, start_move};
use parsing_moves::{HeldRow, NodeMove};

pub fn begin_mark(text: &[u8], top: u16, m: u16, from: u16, to: u16) -> NodeMove
    requires { from < 65535 }
    ensures { DecidesIn text.now Begin top m from to result }
{
    if m == 2 {
        return opens_row(ReadState::Expect, 14, from, 0, 0);
    }
    if m < 6 {
        return closing_move(top, m, from);
    }
    start_move(text, top, m, from, to)
}

pub fn amp_mark(text: &[u8], top: u16, m: u16, from: u16, to: u16) -> NodeMove
    requires { from < 65535 }
    ensures { DecidesIn text.now BehindAmp top m from to result }
{
    if m == 7 {
        return NodeMove::Mutates;
    }
    start_move(text, top, m, from, to)
}

pub fn ref_mark(held: HeldRow, m: u16, from: u16) -> NodeMove
    ensures { DecidesHeld BehindRef held 0 m from result }
{
    let at = held.at;
    if m == 7 {
        return holds_flags(ReadState::BehindMut, at, 3);
    }
    NodeMove::Halts(from)
}

pub fn minus_mark(text: &[u8], at: u16, top: u16, m: u16, from: u16, to: u16) -> NodeMove
    ensures { DecidesMinus text.now at top m from to result }
{
    if m != 11 {
        return NodeMove::Halts(from);
    }
    if is_wide(text, true, from, to) {
        return NodeMove::Halts(from);
    }
    if top == 5 {
        return NodeMove::ShutsRange(literal_row(3, at, 4, from, to));
    }
    holds_literal(at, 4, from, to)
}

pub fn from_mark(text: &[u8], m: u16, from: u16, to: u16) -> NodeMove
    ensures { DecidesIn text.now AtFrom 0 m from to result }
{
    if m < 6 {
        return bound_move(text, m, from, to, NodeMove::ShutsOpenRange);
    }
    bound_move(text, m, from, to, NodeMove::Halts(from))
}

// An integer that is a field; its bytes have been copied to the names'.
fn index_move(text: &[u8], from: u16, to: u16, start: u16, end: u16) -> NodeMove
    ensures { DecidesIndex text.now from to start end result }
{
    if is_wide(text, false, from, to) {
        return NodeMove::Halts(from);
    }
    NodeMove::Holds(
        ReadState::AtIndex,
        HeldRow {
            at: from,
            more: 0,
            spot: from,
            from: start,
            to: end,
        },
    )
}

pub fn brace_mark(text: &[u8], m: u16, from: u16, to: u16, start: u16, end: u16) -> NodeMove
    ensures { DecidesBrace text.now m from to start end result }
{
    match m {
        5 => NodeMove::ShutsTop,
        21 => holds_flags(ReadState::AtEtc, 0, 0),
        11 => index_move(text, from, to, start, end),
        6 => holds_flags(ReadState::BehindRef, from, 1),
        7 => holds_flags(ReadState::BehindMut, from, 2),
        _ => NodeMove::Halts(from),
    }
}

pub fn etc_mark(m: u16, from: u16) -> NodeMove
    ensures { DecidesHeld AtEtc (record { at = 0; more = 0; spot = 0; from = 0; to = 0 }) 0 m from result }
{
    if m == 5 {
        return NodeMove::ShutsTop;
    }
    NodeMove::Halts(from)
}
