// Numbers in decimal and in hexadecimal, and the bytes of a constant.
ghost use Rattle.std.specs.Prelude.{◌≡◌, [], ◌∷◌, ◌++◌, ◌<◌, ◌/◌, ◌%◌};
ghost use Rattle.listing_text.specs.Words.{newline};
ghost use Rattle.listing_text.specs.Numbers.{hex_digit, decimal, hex, hex_digits, hex_halves, hex_bytes, constant_bytes};
ghost use Rattle.listing_text.specs.Writing.{Wrote};

use super::pen::{Pen, put, put_byte};

// A number in decimal.
pub fn put_decimal(out: &mut [u8], pen: Pen, n: u16) -> Pen
    ensures { Wrote out.old pen (decimal n) result out.new }
{
    if n < 10 {
        return put_byte(out, pen, 48 + (n as u8));
    }
    let high = put_decimal(out, pen, n / 10);
    put_byte(out, high, 48 + ((n % 10) as u8))
}

// A piece of text and a number.
pub fn put_numbered(out: &mut [u8], pen: Pen, text: &[u8], n: u16) -> Pen
    ensures { Wrote out.old pen (text.now ++ decimal n) result out.new }
{
    let begun = put(out, pen, text);
    put_decimal(out, begun, n)
}

// A line that ends in a number.
pub fn put_line(out: &mut [u8], pen: Pen, text: &[u8], n: u16) -> Pen
    ensures { Wrote out.old pen (text.now ++ (decimal n ++ newline)) result out.new }
{
    let begun = put_numbered(out, pen, text, n);
    put(out, begun, b"\n")
}

// A digit of a number in hexadecimal.
fn hex_digit(d: u64) -> u8
    requires { d < 16 }
    ensures { result ≡ hex_digit d }
{
    if d < 10 {
        return 48 + (d as u8);
    }
    87 + (d as u8)
}

// A number in hexadecimal, without leading zeros.
fn put_hex(out: &mut [u8], pen: Pen, n: u64) -> Pen
    ensures { Wrote out.old pen (hex n) result out.new }
{
    if n < 16 {
        return put_byte(out, pen, hex_digit(n));
    }
    let high = put_hex(out, pen, n / 16);
    put_byte(out, high, hex_digit(n % 16))
}

// The lowest digits of a number in hexadecimal: so many.
fn put_hex_digits(out: &mut [u8], pen: Pen, digits: u16, n: u64) -> Pen
    ensures { Wrote out.old pen (hex_digits digits n) result out.new }
{
    if digits == 0 {
        return put(out, pen, b"");
    }
    let high = put_hex_digits(out, pen, digits - 1, n / 16);
    put_byte(out, high, hex_digit(n % 16))
}

// A number of two halves in hexadecimal, without leading zeros.
pub fn put_hex_halves(out: &mut [u8], pen: Pen, low: u64, high: u64) -> Pen
    ensures { Wrote out.old pen (hex_halves low high) result out.new }
{
    if high == 0 {
        return put_hex(out, pen, low);
    }
    let begun = put_hex(out, pen, high);
    put_hex_digits(out, begun, 16, low)
}

// The lowest byte of a number, as two digits.
fn put_low_byte(out: &mut [u8], pen: Pen, n: u64) -> Pen
    ensures { Wrote out.old pen (hex_digit (n % 256 / 16) ∷ hex_digit (n % 16) ∷ []) result out.new }
{
    let high = put_byte(out, pen, hex_digit(n % 256 / 16));
    put_byte(out, high, hex_digit(n % 16))
}

// The lowest bytes of a number in memory order: so many.
fn put_hex_bytes(out: &mut [u8], pen: Pen, count: u16, n: u64) -> Pen
    ensures { Wrote out.old pen (hex_bytes count n) result out.new }
{
    let mut written = put(out, pen, b"");
    let mut left = n;
    for _ in 0..count {
        written = put_low_byte(out, written, left);
        left /= 256;
    }
    written
}

// The bytes of a constant of two halves in memory order: so many.
pub fn put_constant_bytes(out: &mut [u8], pen: Pen, count: u16, low: u64, high: u64) -> Pen
    ensures { Wrote out.old pen (constant_bytes count low high) result out.new }
{
    if count <= 8 {
        return put_hex_bytes(out, pen, count, low);
    }
    let begun = put_hex_bytes(out, pen, 8, low);
    put_hex_bytes(out, begun, count - 8, high)
}
