// Reads an image on standard input, and prints its listing or its refusal. No image is longer than 34,321 bytes, so an input that does not fit the buffer is refused
// by what fits.
#![tactic(auto)]

use image_listing::list_image;
use program_io::{read_input, write_output};
use std::io::Read;

// Prints the listing of an image, or its refusal; the buffer is lent as room for the text, and one that does not fit is not printed.
fn print_listing(rt: &(impl Print + Eprint), image: &[u8], out: &mut [u8]) {
    let count = list_image(image, out);
    write_output(rt, &out[..count]);
}

// The input is read into the one buffer, and its listing printed by way of the other.
fn run(
    rt: &(impl Print + Eprint),
    input: &mut impl Read,
    buffer: &mut [u8],
    out: &mut [u8; 524288],
) {
    match read_input(rt, input, buffer) {
        None => {}
        Some(n) => print_listing(rt, &buffer[..n], out),
    }
}

fn main(rt: HostRuntime) {
    let mut buffer = [0u8; 65536];
    let mut out = [0u8; 524288];
    run(&rt, &mut rt.stdin(), &mut buffer, &mut out);
}
