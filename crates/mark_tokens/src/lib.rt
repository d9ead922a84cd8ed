// Punctuation, by its first three bytes.
#![tactic(auto)]

ghost use Rattle.std.specs.Prelude.{◌≡◌, [], ◌∷◌};
ghost use Rattle.pattern_words.specs.Words.{piece, failing};
ghost use Rattle.pattern_tokens.specs.Tokens.{punctuation, first_where};

use pattern_words::{Kind, Piece};
use text_chars::byte_of;

fn fails() -> Piece
    ensures { result ≡ failing }
{
    Piece {
        kind: Kind::Fails,
        size: 0,
    }
}

fn mark(kind: Kind, size: usize) -> Piece
    ensures { result ≡ piece kind size }
{
    Piece { kind, size }
}

// `...`, `..=`, `..` or `.`, by the bytes behind the first `.`.
fn dots(b: u8, c: u8) -> Piece
    ensures { result ≡ first_where (46 ∷ b ∷ c ∷ []) punctuation }
{
    if b != b'.' {
        return fails();
    }
    if c == b'.' {
        return fails();
    }
    if c == b'=' {
        return mark(Kind::DotDotEq, 3);
    }
    mark(Kind::DotDot, 2)
}

// `&&`, `&=` or `&`.
fn ampersand(b: u8) -> Piece
    ensures { result ≡ first_where (38 ∷ b ∷ []) punctuation }
{
    if b == b'&' {
        return mark(Kind::AndAnd, 2);
    }
    if b == b'=' {
        return fails();
    }
    mark(Kind::And, 1)
}

// `-=`, `->` or `-`.
fn minus(b: u8) -> Piece
    ensures { result ≡ first_where (45 ∷ b ∷ []) punctuation }
{
    if b == b'=' {
        return fails();
    }
    if b == b'>' {
        return fails();
    }
    mark(Kind::Minus, 1)
}

// `|=`, `||` or `|`.
fn bar(b: u8) -> Piece
    ensures { result ≡ first_where (124 ∷ b ∷ []) punctuation }
{
    if b == b'=' {
        return fails();
    }
    if b == b'|' {
        return fails();
    }
    mark(Kind::Or, 1)
}

// `::` or `:`.
fn colon(b: u8) -> Piece
    ensures { result ≡ first_where (58 ∷ b ∷ []) punctuation }
{
    if b == b':' {
        return mark(Kind::PathSep, 2);
    }
    mark(Kind::Colon, 1)
}

fn mark_of(a: u8, b: u8, c: u8) -> Piece
    ensures { result ≡ first_where (a ∷ b ∷ c ∷ []) punctuation }
{
    match a {
        b'.' => dots(b, c),
        b'&' => ampersand(b),
        b'-' => minus(b),
        b'|' => bar(b),
        b':' => colon(b),
        b'(' => mark(Kind::OpenParen, 1),
        b')' => mark(Kind::CloseParen, 1),
        b',' => mark(Kind::Comma, 1),
        b'@' => mark(Kind::Bind, 1),
        b'[' => mark(Kind::OpenBracket, 1),
        b']' => mark(Kind::CloseBracket, 1),
        b'{' => mark(Kind::OpenBrace, 1),
        b'}' => mark(Kind::CloseBrace, 1),
        _ => fails(),
    }
}

// The token that begins with none of a word's, an integer's and a char's first bytes.
pub fn mark_piece(bytes: &[u8]) -> Piece
    ensures { result ≡ first_where bytes.now punctuation }
{
    mark_of(byte_of(bytes, 0), byte_of(bytes, 1), byte_of(bytes, 2))
}
