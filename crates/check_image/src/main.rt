// Reads an image on standard input, and prints its counts or its refusal. No image is longer than 34,321 bytes, so an input that does not fit
// the buffer is refused by what fits.
#![tactic(auto)]

use image_report::report;
use program_io::read_input;

fn main(rt: HostRuntime) {
    let mut buffer = [0u8; 65536];
    match read_input(&rt, &mut rt.stdin(), &mut buffer) {
        None => {}
        Some(n) => report(&rt, &buffer[..n]),
    }
}
