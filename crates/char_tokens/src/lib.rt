// Chars.
#![tactic(auto)]

ghost use Rattle.std.specs.Prelude.{◌≡◌, ◌<◌, length};
ghost use Rattle.pattern_tokens.specs.Literals.{plain_char, char_of, is_suffix, closed_char, char_piece};

use char_escapes::escape_of;
use pattern_tokens::byte_behind;
use pattern_words::words::{is_in_word, is_letter};
use pattern_words::{Kind, Piece};
use text_chars::{byte_of, scalar_of};

fn plain_char(scalar: Option<(u32, usize)>) -> Option<(u32, usize)>
    ensures { result ≡ plain_char scalar }
{
    let (v, more) = scalar?;
    match v {
        0x27 => None,
        0xA => None,
        0xD => None,
        0x9 => None,
        _ => Some((v, more)),
    }
}

// What stands between the quotes of a char.
fn char_of(bytes: &[u8]) -> Option<(u32, usize)>
    ensures { result ≡ char_of bytes.now }
{
    if byte_of(bytes, 0) == b'\\' {
        return escape_of(bytes);
    }
    plain_char(scalar_of(bytes))
}

fn is_suffix(b: u8, c: u8) -> bool
    ensures { result ≡ is_suffix b c }
{
    if is_letter(b) {
        return true;
    }
    if b == b'_' {
        return is_in_word(c);
    }
    false
}

fn closed_char(bytes: &[u8], v: u32, more: usize) -> Piece
    ensures { result ≡ closed_char bytes.now v more }
{
    if byte_behind(bytes, more, 2) != b'\'' {
        return Piece {
            kind: Kind::Fails,
            size: 0,
        };
    }
    if is_suffix(byte_behind(bytes, more, 3), byte_behind(bytes, more, 4)) {
        return Piece {
            kind: Kind::Fails,
            size: 0,
        };
    }
    Piece {
        kind: Kind::Char(v),
        size: more + 3,
    }
}

// The token that begins with a quote.
pub fn char_piece(bytes: &[u8]) -> Piece
    requires { 0 < length bytes.now }
    ensures { result ≡ char_piece bytes.now }
{
    match char_of(&bytes[1..]) {
        Some((v, more)) => closed_char(bytes, v, more),
        None => Piece {
            kind: Kind::Fails,
            size: 0,
        },
    }
}
