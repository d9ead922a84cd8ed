// Scalar values in UTF-8, from their bytes.
ghost use Rattle.std.specs.Prelude.{◌≡◌, drop};
ghost use Rattle.text_chars.specs.Scalars.{is_tail, shortest_form, scalar_from, is_utf8};

use crate::scalar_of;
use scalar_values::is_scalar_value;

fn is_tail(b: u32) -> bool
    ensures { result ≡ is_tail b }
{
    if b < 0x80 {
        return false;
    }
    b < 0xC0
}

// A scalar value that has no shorter form.
fn shortest_form(least: u32, v: u32, more: usize) -> Option<(u32, usize)>
    ensures { result ≡ shortest_form least v more }
{
    if v < least {
        return None;
    }
    if is_scalar_value(v) {
        return Some((v, more));
    }
    None
}

// The scalar value with which four bytes begin.
pub fn scalar_from(a: u32, b: u32, c: u32, d: u32) -> Option<(u32, usize)>
    ensures { result ≡ scalar_from a b c d }
{
    if a < 0x80 {
        return Some((a, 0));
    }
    if a < 0xC0 {
        return None;
    }
    if !is_tail(b) {
        return None;
    }
    if a < 0xE0 {
        return shortest_form(0x80, a % 32 * 64 + b % 64, 1);
    }
    if !is_tail(c) {
        return None;
    }
    if a < 0xF0 {
        return shortest_form(0x800, a % 16 * 4096 + b % 64 * 64 + c % 64, 2);
    }
    if !is_tail(d) {
        return None;
    }
    if a < 0xF8 {
        return shortest_form(
            0x10000,
            a % 8 * 262144 + b % 64 * 4096 + c % 64 * 64 + d % 64,
            3,
        );
    }
    None
}

pub fn wide(b: u8) -> u32
    ensures { result ≡ b }
{
    b as u32
}

// Of the bytes behind the first, the next `count` are whole scalar values.
pub fn is_utf8(bytes: &[u8], count: usize) -> bool
    ensures { result ≡ is_utf8 count 0 (drop 1 bytes.now) }
{
    let mut rest: usize = 0;
    for at in 1..=count {
        if bytes.len() <= at {
            return false;
        }
        if rest != 0 {
            rest -= 1;
            continue;
        }
        match scalar_of(&bytes[at..]) {
            Some((_, more)) => rest = more,
            None => return false,
        }
    }
    rest == 0
}
