// A stored question whether a pattern fits, whose words stand behind the image: the pattern, the type of its place, the place's root, and the bindings' locals. The answer is
// printed.
#![tactic(auto)]

use fit::{FitCall, fit};
use image::PatId;
use place::LocalId;
use program_io::write_output;
use std::io::Read;
use stored_records::next_words;

// Prints the answer to a question; fewer than three words name nothing.
fn print_fit(rt: &(impl Print + Eprint), image: &[u8], words: &[u16]) {
    if words.len() < 3 {
        write_output(rt, b"refused 2 65535 0\n");
        return;
    }
    let root = LocalId(words[2]);
    match fit(image, &words[3..], root, words[1], PatId(words[0])) {
        FitCall::Fits => write_output(rt, b"fits\n"),
        FitCall::DoesNot => write_output(rt, b"does not fit\n"),
        FitCall::BadCall => write_output(rt, b"refused 2 65535 0\n"),
        FitCall::BadImage => write_output(rt, b"refused 1 65535 0\n"),
    }
}

// The question on this image, whose words come next: answers whether they fitted.
pub fn replay_fit(rt: &(impl Print + Eprint), input: &mut impl Read, image: &[u8]) -> bool {
    let mut words = [0u16; 4096];
    match next_words(input, &mut words) {
        None => false,
        Some(k) => {
            print_fit(rt, image, &words[..k]);
            true
        }
    }
}
