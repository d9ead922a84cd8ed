// The escapes of chars.
#![tactic(auto)]

ghost use Rattle.std.specs.Prelude.{◌≡◌, drop};
ghost use Rattle.pattern_tokens.specs.Literals.{hex_digit, simple_escape, byte_escape, escaped, unicode_from, escape_of};

use pattern_words::words::is_between;
use scalar_values::is_scalar_value;
use text_chars::byte_of;
use text_chars::scalars::wide;

fn hex_digit(b: u8) -> u32
    ensures { result ≡ hex_digit b }
{
    if is_between(b'0', b'9', b) {
        return wide(b - b'0');
    }
    if is_between(b'a', b'f', b) {
        return wide(b - b'a' + 10);
    }
    if is_between(b'A', b'F', b) {
        return wide(b - b'A' + 10);
    }
    16
}

fn simple_escape(b: u8) -> Option<(u32, usize)>
    ensures { result ≡ simple_escape b }
{
    match b {
        b'n' => Some((0xA, 1)),
        b'r' => Some((0xD, 1)),
        b't' => Some((0x9, 1)),
        b'0' => Some((0, 1)),
        b'\\' => Some((0x5C, 1)),
        b'\'' => Some((0x27, 1)),
        b'"' => Some((0x22, 1)),
        _ => None,
    }
}

fn byte_escape(b: u8, c: u8) -> Option<(u32, usize)>
    ensures { result ≡ byte_escape b c }
{
    let high = hex_digit(b);
    if 8 <= high {
        return None;
    }
    let low = hex_digit(c);
    if 16 <= low {
        return None;
    }
    Some((high * 16 + low, 3))
}

fn escaped_value(v: u32, more: usize) -> Option<(u32, usize)>
    ensures { result ≡ escaped v more }
{
    if is_scalar_value(v) {
        return Some((v, more));
    }
    None
}

// An escape `\u{ }`.
fn unicode_escape(bytes: &[u8]) -> Option<(u32, usize)>
    ensures { result ≡ unicode_from 3 0 0 (drop 3 bytes.now) }
{
    let mut digits: usize = 0;
    let mut v: u32 = 0;
    for at in 3..bytes.len() {
        let b = bytes[at];
        let digit = hex_digit(b);
        if digit < 16 {
            if 6 <= digits {
                return None;
            }
            v = v * 16 + digit;
            digits += 1;
            continue;
        }
        if digits == 0 {
            return None;
        }
        if b == b'_' {
            continue;
        }
        if b == b'}' {
            return escaped_value(v, at);
        }
        return None;
    }
    None
}

// What an escape means: the bytes begin with one.
pub fn escape_of(bytes: &[u8]) -> Option<(u32, usize)>
    ensures { result ≡ escape_of bytes.now }
{
    let b = byte_of(bytes, 1);
    if b == b'x' {
        return byte_escape(byte_of(bytes, 2), byte_of(bytes, 3));
    }
    if b != b'u' {
        return simple_escape(b);
    }
    if byte_of(bytes, 2) == b'{' {
        return unicode_escape(bytes);
    }
    simple_escape(b)
}
