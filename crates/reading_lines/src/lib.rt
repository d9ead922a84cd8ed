// Prints what reading a text answers, as a line on standard output: an image in hexadecimal, or a refusal.
#![tactic(auto)]

ghost use Rattle.std.specs.Prelude.{◌≡◌, ◌*◌, ◌≤◌, length};

use program_io::{tell_write, write_output};

// The digit of the lower four bits.
fn hex_digit(value: u8) -> u8 {
    let low = value % 16;
    if low < 10 {
        return b'0' + low;
    }
    b'a' + (low - 10)
}

// The first bytes in hexadecimal, two digits each.
fn put_hex(bytes: &[u8], count: usize, out: &mut [u8])
    requires { (count ≤ length bytes.now) × (2 * count ≤ length out.old) × (count ≤ 34321) }
{
    for (i, byte) in bytes[..count].iter().enumerate() {
        out[2 * i] = hex_digit(*byte / 16);
        out[2 * i + 1] = hex_digit(*byte);
    }
}

// A line: `image`, and the first bytes of an image in hexadecimal.
pub fn print_image(rt: &(impl Print + Eprint), image: &[u8], count: usize)
    requires { (count ≤ 34321) × (length image.now ≡ 34321) }
{
    let mut digits = [0u8; 68642];
    put_hex(image, count, &mut digits);
    write_output(rt, b"image ");
    write_output(rt, &digits[..2 * count]);
    write_output(rt, b"\n");
}

// A space, and a number: answers whether they were written.
fn print_number(rt: &impl Print, number: u16) -> bool {
    print!(rt; " {number}").is_ok()
}

// `refused`, the number, the position, and 0 as the reason.
pub fn print_refusal(rt: &(impl Print + Eprint), number: u16, position: u16) {
    if !(rt.write_all(b"refused").is_ok()
        && print_number(rt, number)
        && print_number(rt, position)
        && rt.write_all(b" 0\n").is_ok())
    {
        tell_write(rt);
    }
}
