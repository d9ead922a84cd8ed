// What the parser does at a name of a text: its bytes are copied into one table.
#![tactic(auto)]

ghost use Rattle.std.specs.Prelude.{◌≡◌};
ghost use Rattle.token_rows.specs.TokenRows.{lexeme_of};
ghost use Rattle.token_moves.specs.TokenMoves.{Readable, MovesOn};

use parsing_machine::ReadState;
use parsing_moves::HeldRow;
use parsing_names::{name_move, role_of};
use spelled_names::{NAME_BYTES, copy_behind, copy_bytes};
use token_moves::TokenMove;
use token_rows::TokenRow;

// A name: its bytes are copied, behind `::` if it goes on a path.
pub fn name_token(
    text: &[u8],
    names: &mut [u8; NAME_BYTES],
    named: usize,
    state: ReadState,
    held: HeldRow,
    top: u16,
    token: TokenRow,
) -> TokenMove
    requires { Readable text.now named state held (lexeme_of token) × (token.sort ≡ 0) }
    ensures { MovesOn text.now names.old named state held top (lexeme_of token) result.made result.named names.new }
{
    let own = token.own as usize;
    let from = token.from;
    let to = token.to as usize;
    if role_of(state) == 2 {
        let end = copy_behind(text, own, to, names, named);
        let made = name_move(state, held, top, from, (named + 2) as u16, end as u16);
        return TokenMove { made, named: end };
    }
    let end = copy_bytes(text, own, to, names, named);
    let made = name_move(state, held, top, from, named as u16, end as u16);
    TokenMove { made, named: end }
}
