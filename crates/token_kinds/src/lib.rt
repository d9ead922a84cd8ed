// The row of a token, by its kind.
#![tactic(auto)]

ghost use Rattle.std.specs.Prelude.{◌≡◌};
ghost use Rattle.pattern_grammar.specs.Lexemes.{of_kind};
ghost use Rattle.token_rows.specs.TokenRows.{spot_from, lexeme_of, SmallName};

use pattern_words::Kind;
use token_rows::{TokenRow, char_row, mark_row, name_row};

pub fn row_of(kind: Kind, from: u16, to: u16) -> TokenRow
    requires { SmallName kind }
    ensures { lexeme_of result ≡ of_kind kind (spot_from from to) }
{
    match kind {
        Kind::Name(own) => name_row(own, from, to),
        Kind::Ref => mark_row(6, from, to),
        Kind::Mut => mark_row(7, from, to),
        Kind::True => mark_row(8, from, to),
        Kind::False => mark_row(9, from, to),
        Kind::Underscore => mark_row(10, from, to),
        Kind::Integer => mark_row(11, from, to),
        Kind::Char(v) => char_row(v, from, to),
        Kind::OpenParen => mark_row(13, from, to),
        Kind::CloseParen => mark_row(3, from, to),
        Kind::OpenBracket => mark_row(14, from, to),
        Kind::CloseBracket => mark_row(4, from, to),
        Kind::OpenBrace => mark_row(15, from, to),
        Kind::CloseBrace => mark_row(5, from, to),
        Kind::Comma => mark_row(1, from, to),
        Kind::Or => mark_row(2, from, to),
        Kind::And => mark_row(16, from, to),
        Kind::AndAnd => mark_row(17, from, to),
        Kind::Bind => mark_row(18, from, to),
        Kind::Minus => mark_row(12, from, to),
        Kind::Colon => mark_row(19, from, to),
        Kind::PathSep => mark_row(20, from, to),
        Kind::DotDot => mark_row(21, from, to),
        Kind::DotDotEq => mark_row(22, from, to),
        Kind::End => mark_row(0, from, to),
        Kind::Fails => mark_row(23, from, to),
    }
}
