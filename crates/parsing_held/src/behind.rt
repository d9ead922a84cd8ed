// A mark behind what is held.
ghost use Rattle.std.specs.Prelude.{◌≡◌};
ghost use Rattle.parsing_machine.specs.declared.ReadState.TheVariants.{AtName, AtBound, AtPath, AtLiteral, AtToPath, AtLabel, AtIndex, AtField};
ghost use Rattle.parsing_moves.specs.Rows.{DecidesHeld, DecidesPath, DecidesLower, DecidesLowerLiteral, DecidesField};

use parsing_machine::ReadState;
use parsing_moves::makers::{literal_row, named_row, opens_named, range_row};
use parsing_moves::{HeldRow, NodeMove};

// Dots behind a lower bound that is a path.
fn lower_path(held: HeldRow, top: u16, state: ReadState, dots: u16, from: u16) -> NodeMove
    ensures { DecidesLower held top state dots from result }
{
    if top == 8 {
        return NodeMove::Halts(from);
    }
    let at = held.at;
    NodeMove::OpensBehind(state, named_row(4, at, 0, 0, held), range_row(at, dots))
}

fn path_move(held: HeldRow, top: u16, m: u16, from: u16) -> NodeMove
    ensures { DecidesPath held top m from result }
{
    let at = held.at;
    match m {
        20 => NodeMove::Holds(ReadState::AtSep, held),
        13 => opens_named(ReadState::Begin, 10, at, 65535, held),
        15 => opens_named(ReadState::AtBrace, 12, at, 0, held),
        21 => lower_path(held, top, ReadState::AtFrom, 1, from),
        22 => lower_path(held, top, ReadState::AtTo, 0, from),
        _ => NodeMove::Halts(from),
    }
}

pub fn name_mark(held: HeldRow, top: u16, m: u16, from: u16) -> NodeMove
    ensures { DecidesHeld AtName held top m from result }
{
    let at = held.at;
    if m < 6 {
        return NodeMove::ShutsBefore(named_row(7, at, 0, 0, held));
    }
    if m == 18 {
        return opens_named(ReadState::Expect, 7, at, 0, held);
    }
    path_move(held, top, m, from)
}

pub fn bound_mark(held: HeldRow, m: u16, from: u16) -> NodeMove
    ensures { DecidesHeld AtBound held 0 m from result }
{
    let at = held.at;
    let more = held.more;
    if m < 6 {
        return NodeMove::ShutsBefore(named_row(7, at, 0, more, held));
    }
    if m == 18 {
        return opens_named(ReadState::Expect, 7, at, more, held);
    }
    NodeMove::Halts(from)
}

pub fn path_mark(held: HeldRow, top: u16, m: u16, from: u16) -> NodeMove
    ensures { DecidesHeld AtPath held top m from result }
{
    let at = held.at;
    if m < 6 {
        return NodeMove::ShutsBefore(named_row(6, at, 0, 0, held));
    }
    path_move(held, top, m, from)
}

// Dots behind a lower bound that is a literal.
fn lower_literal(held: HeldRow, top: u16, state: ReadState, dots: u16, from: u16) -> NodeMove
    ensures { DecidesLowerLiteral held top state dots from result }
{
    if top == 8 {
        return NodeMove::Halts(from);
    }
    let at = held.at;
    let sort = held.more;
    let start = held.from;
    let end = held.to;
    NodeMove::OpensBehind(
        state,
        literal_row(3, at, sort, start, end),
        range_row(at, dots),
    )
}

pub fn literal_mark(held: HeldRow, top: u16, m: u16, from: u16) -> NodeMove
    ensures { DecidesHeld AtLiteral held top m from result }
{
    let at = held.at;
    let sort = held.more;
    let start = held.from;
    let end = held.to;
    if m < 6 {
        return NodeMove::ShutsBefore(literal_row(2, at, sort, start, end));
    }
    if m == 21 {
        return lower_literal(held, top, ReadState::AtFrom, 1, from);
    }
    if m == 22 {
        return lower_literal(held, top, ReadState::AtTo, 0, from);
    }
    NodeMove::Halts(from)
}

pub fn to_path_mark(held: HeldRow, m: u16, from: u16) -> NodeMove
    ensures { DecidesHeld AtToPath held 0 m from result }
{
    let at = held.at;
    if m < 6 {
        return NodeMove::ShutsRangeBefore(named_row(4, at, 0, 0, held));
    }
    if m == 20 {
        return NodeMove::Holds(ReadState::AtSep, held);
    }
    NodeMove::Halts(from)
}

// A field that is a name alone, with what stands before it or not.
fn field_move(held: HeldRow, flags: u16, m: u16, from: u16) -> NodeMove
    ensures { DecidesField held flags m from result }
{
    let at = held.at;
    let spot = held.spot;
    if m == 1 {
        return NodeMove::AddsField(
            named_row(7, at, 0, flags, held),
            named_row(13, spot, 1, 0, held),
        );
    }
    if m == 5 {
        return NodeMove::AddsLastField(
            named_row(7, at, 0, flags, held),
            named_row(13, spot, 1, 0, held),
        );
    }
    NodeMove::Halts(from)
}

pub fn label_mark(held: HeldRow, m: u16, from: u16) -> NodeMove
    ensures { DecidesHeld AtLabel held 0 m from result }
{
    let spot = held.spot;
    if m == 19 {
        return opens_named(ReadState::Begin, 13, spot, 0, held);
    }
    field_move(held, 0, m, from)
}

pub fn index_mark(held: HeldRow, m: u16, from: u16) -> NodeMove
    ensures { DecidesHeld AtIndex held 0 m from result }
{
    let spot = held.spot;
    if m == 19 {
        return opens_named(ReadState::Begin, 13, spot, 0, held);
    }
    NodeMove::Halts(from)
}

pub fn field_mark(held: HeldRow, m: u16, from: u16) -> NodeMove
    ensures { DecidesHeld AtField held 0 m from result }
{
    let flags = held.more;
    field_move(held, flags, m, from)
}
