// What the parser does at a mark, by the state.
#![tactic(auto)]

ghost use Rattle.std.specs.Prelude.{◌<◌};
ghost use Rattle.parsing_moves.specs.Rows.{DecidesMark};

use parsing_held::behind::{
    bound_mark, field_mark, index_mark, label_mark, literal_mark, name_mark, path_mark,
    to_path_mark,
};
use parsing_machine::ReadState;
use parsing_marks::{amp_mark, begin_mark, brace_mark, etc_mark, from_mark, minus_mark, ref_mark};
use parsing_moves::starts::{bound_move, start_move};
use parsing_moves::{HeldRow, NodeMove};

// The integer that is a field, if it is one, has been copied to the names' bytes, from `start` to `end`.
pub fn mark_move(
    text: &[u8],
    state: ReadState,
    held: HeldRow,
    top: u16,
    m: u16,
    from: u16,
    to: u16,
    start: u16,
    end: u16,
) -> NodeMove
    requires { from < 65535 }
    ensures { DecidesMark text.now state held top m from to start end result }
{
    let at = held.at;
    match state {
        ReadState::Begin => begin_mark(text, top, m, from, to),
        ReadState::Expect => start_move(text, top, m, from, to),
        ReadState::BehindAmp => amp_mark(text, top, m, from, to),
        ReadState::BehindRef => ref_mark(held, m, from),
        ReadState::BehindMut => NodeMove::Halts(from),
        ReadState::AtName => name_mark(held, top, m, from),
        ReadState::AtBound => bound_mark(held, m, from),
        ReadState::AtPath => path_mark(held, top, m, from),
        ReadState::AtSep => NodeMove::Halts(from),
        ReadState::AtMinus => minus_mark(text, at, top, m, from, to),
        ReadState::AtLiteral => literal_mark(held, top, m, from),
        ReadState::AtDots => bound_move(text, m, from, to, NodeMove::ShutsRest),
        ReadState::AtFrom => from_mark(text, m, from, to),
        ReadState::AtTo => bound_move(text, m, from, to, NodeMove::Halts(from)),
        ReadState::AtToPath => to_path_mark(held, m, from),
        ReadState::AtAlt => NodeMove::PassesOn,
        ReadState::AtBrace => brace_mark(text, m, from, to, start, end),
        ReadState::AtLabel => label_mark(held, m, from),
        ReadState::AtIndex => index_mark(held, m, from),
        ReadState::AtField => field_mark(held, m, from),
        ReadState::AtEtc => etc_mark(m, from),
    }
}
