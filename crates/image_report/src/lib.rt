// Prints what reading an image answers, as one line on standard output.
#![tactic(auto)]

use image::Tables;
use program_io::{tell_write, write_output};
use read_image::read_image;

// A space, and a count: answers whether they were written.
fn print_count(rt: &impl Print, count: u16) -> bool {
    print!(rt; " {count}").is_ok()
}

// `image` and the six counts: T V P B L D.
fn print_counts(rt: &impl Print, tables: Tables) -> bool {
    rt.write_all(b"image").is_ok()
        && print_count(rt, tables.types.count)
        && print_count(rt, tables.variants.count)
        && print_count(rt, tables.patterns.count)
        && print_count(rt, tables.bindings.count)
        && print_count(rt, tables.list.count)
        && print_count(rt, tables.bytes.count)
        && rt.write_all(b"\n").is_ok()
}

// The counts of an image, or `refused` and the three numbers of the refusal.
pub fn report(rt: &(impl Print + Eprint), image: &[u8]) {
    match read_image(image) {
        Some(tables) => {
            if !print_counts(rt, tables) {
                tell_write(rt);
            }
        }
        None => write_output(rt, b"refused 1 65535 0\n"),
    }
}
