// Replays the stored lists from standard input: for each record, what it has to say is printed. The sorts of records: 1 an image (its counts), 2 an image (its listing),
// 3 a script of calls on a body and on patterns, 4 a call on parameters, 5 a question whether a pattern fits. Those of the sort 6, calls on texts, are `replay_texts`'s.
#![tactic(auto)]

mod listings; // listings.rt: listings, and calls on parameters

use image_report::report;
use listings::{print_listing, replay_params};
use replay_fit::replay_fit;
use replay_matches::replay_script;
use std::io::Read;
use stored_records::{next_entry, next_sort};

// A record of this sort, of which the image has been read: answers whether it could be replayed.
fn replay_record(
    rt: &(impl Print + Eprint),
    input: &mut impl Read,
    sort: u8,
    image: &[u8],
    out: &mut [u8; 524288],
) -> bool {
    match sort {
        1 => {
            report(rt, image);
            true
        }
        2 => {
            print_listing(rt, image, out);
            true
        }
        3 => {
            replay_script(rt, input, image);
            true
        }
        4 => replay_params(rt, input, image, out),
        5 => replay_fit(rt, input, image),
        _ => false,
    }
}

// The next record: answers whether there was one that could be replayed.
fn next(
    rt: &(impl Print + Eprint),
    input: &mut impl Read,
    buffer: &mut [u8],
    out: &mut [u8; 524288],
) -> bool {
    let sort = next_sort(input);
    match next_entry(input, buffer) {
        None => false,
        Some(n) => replay_record(rt, input, sort, &buffer[..n], out),
    }
}

// A proved loop has to end, so it counts its turns, up to a number that no list reaches.
fn replay(
    rt: &(impl Print + Eprint),
    input: &mut impl Read,
    buffer: &mut [u8],
    out: &mut [u8; 524288],
) {
    for _ in 0..u64::MAX {
        if !next(rt, input, buffer, out) {
            return;
        }
    }
}

fn main(rt: HostRuntime) {
    let mut buffer = [0u8; 131072];
    let mut out = [0u8; 524288];
    replay(&rt, &mut rt.stdin(), &mut buffer, &mut out);
}
