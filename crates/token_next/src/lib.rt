// The next token of a text, as words.
#![tactic(auto)]

ghost use Rattle.std.specs.Prelude.{◌≡◌, ◌≤◌, length};
ghost use Rattle.pattern_tokens.specs.Tokens.{token_at};
ghost use Rattle.pattern_grammar.specs.Lexemes.{lexeme};
ghost use Rattle.token_rows.specs.TokenRows.{lexeme_of};

use pattern_reader::token_from;
use token_kinds::row_of;
use token_rows::TokenRow;

// The first token from a position of a text on.
pub fn token_row(text: &[u8], at: usize) -> TokenRow
    requires { (length text.now ≤ 16384) × (at ≤ length text.now) }
    ensures { lexeme_of result ≡ lexeme (token_at text.now at) }
{
    let token = token_from(text, at);
    let kind = token.kind;
    let from = token.from;
    let to = token.to;
    row_of(kind, from as u16, to as u16)
}
