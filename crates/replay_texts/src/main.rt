// Replays the stored calls on texts from standard input, the records of the sort 6: a line is printed for each text. Records of the other sorts are those of `replay`.
#![tactic(auto)]

mod readings; // readings.rt: the calls of a record

use readings::replay_reading;
use std::io::Read;
use stored_records::{next_entry, next_sort};

// A record of this sort, of which the sheet has been read: answers whether it could be replayed.
fn replay_record(
    rt: &(impl Print + Eprint),
    input: &mut impl Read,
    sort: u8,
    sheet: &[u8],
) -> bool {
    sort == 6 && replay_reading(rt, input, sheet)
}

// The next record: answers whether there was one that could be replayed.
fn next(rt: &(impl Print + Eprint), input: &mut impl Read, buffer: &mut [u8]) -> bool {
    let sort = next_sort(input);
    match next_entry(input, buffer) {
        None => false,
        Some(n) => replay_record(rt, input, sort, &buffer[..n]),
    }
}

// A proved loop has to end, so it counts its turns, up to a number that no list reaches.
fn replay(rt: &(impl Print + Eprint), input: &mut impl Read, buffer: &mut [u8]) {
    for _ in 0..u64::MAX {
        if !next(rt, input, buffer) {
            return;
        }
    }
}

fn main(rt: HostRuntime) {
    let mut buffer = [0u8; 131072];
    replay(&rt, &mut rt.stdin(), &mut buffer);
}
