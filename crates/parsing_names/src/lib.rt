// What the parser does at a name or a char, by the state.
#![tactic(auto)]

ghost use Rattle.std.specs.Prelude.{◌≡◌};
ghost use Rattle.parsing_moves.specs.Rows.{holds_name};
ghost use Rattle.parsing_moves.specs.Roles.{role, DecidesScalar};
ghost use Rattle.parsing_names.specs.Naming.{NamesHeld};

use parsing_machine::ReadState;
use parsing_moves::makers::{holds_literal, literal_row};
use parsing_moves::{HeldRow, NodeMove};

// What a state waits for: 0 a pattern, 1 a name behind `ref` or `mut`, 2 a name behind `::`, 3 a bound, 4 a field, 5 no name.
pub fn role_of(state: ReadState) -> u16
    ensures { result ≡ role state }
{
    match state {
        ReadState::Begin => 0,
        ReadState::Expect => 0,
        ReadState::BehindAmp => 0,
        ReadState::BehindRef => 1,
        ReadState::BehindMut => 1,
        ReadState::AtSep => 2,
        ReadState::AtDots => 3,
        ReadState::AtFrom => 3,
        ReadState::AtTo => 3,
        ReadState::AtBrace => 4,
        _ => 5,
    }
}

fn holds_name(state: ReadState, at: u16, more: u16, spot: u16, start: u16, end: u16) -> NodeMove
    ensures { result ≡ holds_name state at more spot start end }
{
    NodeMove::Holds(
        state,
        HeldRow {
            at,
            more,
            spot,
            from: start,
            to: end,
        },
    )
}

// A name at a position, whose bytes have been copied to the names', from `start` to `end`, behind `::` if it goes on a path.
pub fn name_move(
    state: ReadState,
    held: HeldRow,
    top: u16,
    from: u16,
    start: u16,
    end: u16,
) -> NodeMove
    ensures { NamesHeld state held top from start end result }
{
    let at = held.at;
    let more = held.more;
    let spot = held.spot;
    let path = held.from;
    match role_of(state) {
        0 => holds_name(ReadState::AtName, from, 0, from, start, end),
        1 => {
            if top == 12 {
                return holds_name(ReadState::AtField, at, more, from, start, end);
            }
            holds_name(ReadState::AtBound, at, more, from, start, end)
        }
        2 => {
            if top == 5 {
                return holds_name(ReadState::AtToPath, at, 0, spot, path, end);
            }
            holds_name(ReadState::AtPath, at, 0, spot, path, end)
        }
        3 => holds_name(ReadState::AtToPath, from, 0, from, start, end),
        4 => holds_name(ReadState::AtLabel, from, 0, from, start, end),
        _ => NodeMove::Halts(from),
    }
}

pub fn scalar_move(state: ReadState, low: u16, high: u16, from: u16) -> NodeMove
    ensures { DecidesScalar state low high from result }
{
    match role_of(state) {
        0 => holds_literal(from, 2, low, high),
        3 => NodeMove::ShutsRange(literal_row(3, from, 2, low, high)),
        _ => NodeMove::Halts(from),
    }
}
