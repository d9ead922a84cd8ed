// Decimal integers.
ghost use Rattle.std.specs.Prelude.{◌≡◌};
ghost use Rattle.text_chars.specs.Bytes.{run};
ghost use Rattle.pattern_tokens.specs.Literals.{in_integer, goes_on, integer_piece};

use pattern_tokens::byte_behind;
use pattern_words::words::{begins_word, is_digit};
use pattern_words::{Kind, Piece};
use text_chars::byte_of;

fn is_in_integer(b: u8) -> bool
    ensures { result ≡ in_integer b }
{
    if is_digit(b) {
        return true;
    }
    b == b'_'
}

fn integer_run(bytes: &[u8]) -> usize
    ensures { result ≡ run in_integer bytes.now }
{
    for at in 0..bytes.len() {
        if !is_in_integer(bytes[at]) {
            return at;
        }
    }
    bytes.len()
}

// By the two bytes behind them, digits are a part of a longer literal.
fn goes_on(b: u8, c: u8) -> bool
    ensures { result ≡ goes_on b c }
{
    if begins_word(b) {
        return true;
    }
    if b != b'.' {
        return false;
    }
    if c == b'.' {
        return false;
    }
    if begins_word(c) {
        return false;
    }
    true
}

// The token that begins with a digit.
pub fn integer_piece(bytes: &[u8]) -> Piece
    ensures { result ≡ integer_piece bytes.now }
{
    let size = integer_run(bytes);
    if goes_on(byte_of(bytes, size), byte_behind(bytes, size, 1)) {
        return Piece {
            kind: Kind::Fails,
            size: 0,
        };
    }
    Piece {
        kind: Kind::Integer,
        size,
    }
}
