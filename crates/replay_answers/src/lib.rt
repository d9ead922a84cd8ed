// What is printed of the answer to a call on a body, and of the tables behind it: each part has a space behind it, but the last checksum a line end.
#![tactic(auto)]

ghost use Rattle.std.specs.Prelude.{◌≡◌, length};
ghost use Rattle.body_tables.specs.Layout.{body_words};

use body_calls_spec::CallError;
use body_tables::{BODY_WORDS, ENTRIES, LOCALS, SCOPES, STATEMENTS};
use image::PatId;
use mir::{BasicBlockId, Counts};
use place::LocalId;
use refusal_numbers::{number_of, reason_of};
use refusals::MirLowerError;

// A number, and a space.
pub fn print_number(rt: &impl Print, number: u32) {
    let _ = print!(rt; "{number} ");
}

// A refusal's number, pattern and reason: 65535 where there is no pattern.
pub fn print_refusal(rt: &impl Print, number: u32, p: PatId, reason: u16) {
    let _ = rt.write_all(b"refused ");
    print_number(rt, number);
    print_number(rt, p.0 as u32);
    print_number(rt, reason as u32);
}

// The three numbers of an error, at a pattern.
pub fn print_error(rt: &impl Print, e: MirLowerError, p: PatId) {
    print_refusal(rt, number_of(e) as u32, p, reason_of(e));
}

fn print_block(rt: &impl Print, block: BasicBlockId) {
    let _ = rt.write_all(b"block ");
    print_number(rt, block.0 as u32);
}

fn print_opt_block(rt: &impl Print, block: Option<BasicBlockId>) {
    match block {
        None => {
            let _ = rt.write_all(b"block - ");
        }
        Some(b) => print_block(rt, b),
    }
}

// The counts behind a call: those of its answer, or after a refusal those before.
pub fn print_temp(
    rt: &impl Print,
    answer: Result<(Counts, LocalId), CallError>,
    before: Counts,
) -> Counts {
    match answer {
        Ok((counts, l)) => {
            let _ = rt.write_all(b"local ");
            print_number(rt, l.0 as u32);
            return counts;
        }
        Err(CallError::Refused(e)) => print_error(rt, e, PatId(65535)),
        Err(CallError::BadCall) => print_refusal(rt, 2, PatId(65535), 0),
        Err(CallError::BadImage) => print_refusal(rt, 1, PatId(65535), 0),
    }
    before
}

pub fn print_merge(
    rt: &impl Print,
    answer: Result<(Counts, Option<BasicBlockId>), CallError>,
    before: Counts,
) -> Counts {
    match answer {
        Ok((counts, b)) => {
            print_opt_block(rt, b);
            return counts;
        }
        Err(CallError::Refused(e)) => print_error(rt, e, PatId(65535)),
        Err(CallError::BadCall) => print_refusal(rt, 2, PatId(65535), 0),
        Err(CallError::BadImage) => print_refusal(rt, 1, PatId(65535), 0),
    }
    before
}

pub fn print_scope(rt: &impl Print, answer: Result<Counts, CallError>, before: Counts) -> Counts {
    match answer {
        Ok(counts) => {
            let _ = rt.write_all(b"now ");
            return counts;
        }
        Err(CallError::Refused(e)) => print_error(rt, e, PatId(65535)),
        Err(CallError::BadCall) => print_refusal(rt, 2, PatId(65535), 0),
        Err(CallError::BadImage) => print_refusal(rt, 1, PatId(65535), 0),
    }
    before
}

pub fn print_drop(
    rt: &impl Print,
    answer: Result<(Counts, BasicBlockId), CallError>,
    before: Counts,
) -> Counts {
    match answer {
        Ok((counts, b)) => {
            print_block(rt, b);
            return counts;
        }
        Err(CallError::Refused(e)) => print_error(rt, e, PatId(65535)),
        Err(CallError::BadCall) => print_refusal(rt, 2, PatId(65535), 0),
        Err(CallError::BadImage) => print_refusal(rt, 1, PatId(65535), 0),
    }
    before
}

// The five counts.
pub fn print_counts(rt: &impl Print, counts: Counts) {
    print_number(rt, counts.blocks as u32);
    print_number(rt, counts.statements as u32);
    print_number(rt, counts.locals as u32);
    print_number(rt, counts.scopes as u32);
    print_number(rt, counts.entries as u32);
}

// Modulo 2^32.
fn plus(sum: u32, word: u16) -> u32 {
    std::num::wrapping_add_u32(sum, word as u32)
}

// Each word of a table times its place, from 1 on, summed up modulo 2^32: from the end on, a word is in so many of the sums.
fn checksum(table: &[u16]) -> u32 {
    let mut behind = 0u32;
    let mut sum = 0u32;
    for word in table.iter().rev() {
        behind = plus(behind, *word);
        sum = std::num::wrapping_add_u32(sum, behind);
    }
    sum
}

// A table's checksum.
pub fn print_sum(rt: &impl Print, table: &[u16]) {
    print_number(rt, checksum(table));
}

// The last table's, and the line's end.
pub fn end_line(rt: &impl Print, table: &[u16]) {
    let sum = checksum(table);
    let _ = println!(rt; "{sum}");
}

// The checksums of a body's blocks, statements, locals and scopes.
fn print_four(rt: &impl Print, body: &[u16])
    requires { length body.now ≡ body_words }
{
    print_sum(rt, &body[0..STATEMENTS]);
    print_sum(rt, &body[STATEMENTS..LOCALS]);
    print_sum(rt, &body[LOCALS..SCOPES]);
    print_sum(rt, &body[SCOPES..ENTRIES]);
}

// The checksums of a body's five tables.
pub fn print_sums(rt: &impl Print, body: &[u16])
    requires { length body.now ≡ body_words }
{
    print_four(rt, body);
    print_sum(rt, &body[ENTRIES..BODY_WORDS]);
}

// The same at the end of a line.
pub fn end_sums(rt: &impl Print, body: &[u16])
    requires { length body.now ≡ body_words }
{
    print_four(rt, body);
    end_line(rt, &body[ENTRIES..BODY_WORDS]);
}
