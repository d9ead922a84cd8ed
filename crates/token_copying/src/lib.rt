// What the parser does at a token of a text, with names copied into one table.
#![tactic(auto)]

ghost use Rattle.std.specs.Prelude.{◌≡◌, false, eqb};
ghost use Rattle.token_rows.specs.TokenRows.{lexeme_of};
ghost use Rattle.token_moves.specs.TokenMoves.{Readable, MovesOn};

use name_copying::name_token;
use parsing_machine::ReadState;
use parsing_moves::HeldRow;
use parsing_names::{role_of, scalar_move};
use parsing_states::mark_move;
use spelled_names::{NAME_BYTES, copy_bytes};
use token_moves::TokenMove;
use token_rows::TokenRow;

// A mark: an integer that is a field is copied.
fn mark_token(
    text: &[u8],
    names: &mut [u8; NAME_BYTES],
    named: usize,
    state: ReadState,
    held: HeldRow,
    top: u16,
    token: TokenRow,
) -> TokenMove
    requires { Readable text.now named state held (lexeme_of token) × ((eqb token.sort 0 ≡ false) × (eqb token.sort 1 ≡ false)) }
    ensures { MovesOn text.now names.old named state held top (lexeme_of token) result.made result.named names.new }
{
    let mark = token.mark;
    let from = token.from;
    let to = token.to;
    if mark == 11 {
        if role_of(state) == 4 {
            let end = copy_bytes(text, from as usize, to as usize, names, named);
            let made = mark_move(
                text,
                state,
                held,
                top,
                mark,
                from,
                to,
                named as u16,
                end as u16,
            );
            return TokenMove { made, named: end };
        }
    }
    let made = mark_move(text, state, held, top, mark, from, to, 0, 0);
    TokenMove { made, named }
}

// A token in a state, with what is held, the kind of what waits innermost, and so many bytes of names in use.
pub fn token_move(
    text: &[u8],
    names: &mut [u8; NAME_BYTES],
    named: usize,
    state: ReadState,
    held: HeldRow,
    top: u16,
    token: TokenRow,
) -> TokenMove
    requires { Readable text.now named state held (lexeme_of token) }
    ensures { MovesOn text.now names.old named state held top (lexeme_of token) result.made result.named names.new }
{
    let sort = token.sort;
    if sort == 0 {
        return name_token(text, names, named, state, held, top, token);
    }
    if sort == 1 {
        let made = scalar_move(state, token.mark, token.own, token.from);
        return TokenMove { made, named };
    }
    mark_token(text, names, named, state, held, top, token)
}
