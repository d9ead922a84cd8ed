// Moves and rows by the words of what they hold or open.
ghost use Rattle.std.specs.Prelude.{◌≡◌, ◌+◌, ◌<◌};
ghost use Rattle.parsing_moves.specs.Rows.{holds_flags, holds_literal, opens_row, opens_named, named_row, literal_row, range_row, two_references};

use crate::{HeldRow, NodeMove};
use node_rows::NodeRow;
use parsing_machine::ReadState;

pub fn holds_flags(state: ReadState, at: u16, more: u16) -> NodeMove
    ensures { result ≡ holds_flags state at more }
{
    NodeMove::Holds(
        state,
        HeldRow {
            at,
            more,
            spot: 0,
            from: 0,
            to: 0,
        },
    )
}

pub fn holds_literal(at: u16, sort: u16, from: u16, to: u16) -> NodeMove
    ensures { result ≡ holds_literal at sort from to }
{
    NodeMove::Holds(
        ReadState::AtLiteral,
        HeldRow {
            at,
            more: sort,
            spot: 0,
            from,
            to,
        },
    )
}

pub fn opens_row(state: ReadState, kind: u16, at: u16, more: u16, to: u16) -> NodeMove
    ensures { result ≡ opens_row state kind at more to }
{
    NodeMove::Opens(
        state,
        NodeRow {
            kind,
            at,
            parts: 0,
            more,
            spot: 0,
            from: 0,
            to,
        },
    )
}

pub fn named_row(kind: u16, at: u16, parts: u16, more: u16, held: HeldRow) -> NodeRow
    ensures { result ≡ named_row kind at parts more held }
{
    NodeRow {
        kind,
        at,
        parts,
        more,
        spot: held.spot,
        from: held.from,
        to: held.to,
    }
}

pub fn opens_named(state: ReadState, kind: u16, at: u16, more: u16, held: HeldRow) -> NodeMove
    ensures { result ≡ opens_named state kind at more held }
{
    NodeMove::Opens(state, named_row(kind, at, 0, more, held))
}

// A literal's row, or a bound's, or that of a node with nothing but its kind.
pub fn literal_row(kind: u16, at: u16, sort: u16, from: u16, to: u16) -> NodeRow
    ensures { result ≡ literal_row kind at sort from to }
{
    NodeRow {
        kind,
        at,
        parts: 0,
        more: sort,
        spot: 0,
        from,
        to,
    }
}

// A range behind its lower bound.
pub fn range_row(at: u16, dots: u16) -> NodeRow
    ensures { result ≡ range_row at dots }
{
    NodeRow {
        kind: 5,
        at,
        parts: 1,
        more: dots,
        spot: 0,
        from: 1,
        to: 1,
    }
}

// `&&`: the inner reference begins at the second byte.
pub fn two_references(at: u16) -> NodeMove
    requires { at < 65535 }
    ensures { result ≡ two_references at }
{
    NodeMove::OpensTwo(literal_row(8, at, 0, 0, 0), literal_row(8, at + 1, 0, 0, 0))
}
