// A stored script: calls on a body and calls on patterns, and a line for each. Behind the image stand a number of four bytes, big-endian, and so many commands of four
// 16-bit words, big-endian. Each script starts with tables of zeros.
#![tactic(auto)]

mod answers; // answers.rt: what is printed of an answer
mod commands; // commands.rt: a command, and the line that it prints
mod matches; // matches.rt: each call on a pattern

use body_tables::BODY_WORDS;
use commands::run_command;
use mir::Counts;
use pattern_entering::VISIT_WORDS;
use replay_commands::next_command;
use std::io::Read;
use stored_records::next_number;

// The commands of a script, as many as the next number says.
fn script(
    rt: &impl Print,
    input: &mut impl Read,
    image: &[u8],
    bindings: &mut [u16; 256],
    body: &mut [u16; BODY_WORDS],
    visits: &mut [u16; VISIT_WORDS],
    handed: &mut [u16; 35],
) {
    let mut counts = Counts {
        blocks: 0,
        statements: 0,
        locals: 0,
        scopes: 0,
        entries: 0,
    };
    for _ in 0..next_number(input) {
        let next = next_command(input);
        counts = run_command(rt, image, bindings, body, visits, counts, handed, next);
    }
}

// The script on this image, whose commands come next, from tables of zeros on.
pub fn replay_script(rt: &impl Print, input: &mut impl Read, image: &[u8]) {
    let mut bindings = [0u16; 256];
    let mut body = [0u16; BODY_WORDS];
    let mut visits = [0u16; VISIT_WORDS];
    let mut handed = [0u16; 35];
    script(
        rt,
        input,
        image,
        &mut bindings,
        &mut body,
        &mut visits,
        &mut handed,
    );
}
