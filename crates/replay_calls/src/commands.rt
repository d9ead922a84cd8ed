// A command of a script: a call, which prints a line, or a word that is set.
use super::calls::{call_assume, call_merge, call_pop, call_push, call_temp, call_until};
use body_tables::BODY_WORDS;
use mir::{BasicBlockId, Counts};
use replay_answers::{end_sums, print_counts};
use replay_commands::words::{poke_count, set_word};
use replay_commands::{Command, opt_block};

// A call, which prints its answer, and the counts behind it.
fn call(
    rt: &impl Print,
    image: &[u8],
    body: &mut [u16; BODY_WORDS],
    counts: Counts,
    command: Command,
) -> Counts {
    let op = command.op;
    let a = command.a;
    let b = command.b;
    match op {
        0 => call_temp(rt, image, body, counts, a, BasicBlockId(b)),
        1 => call_merge(rt, image, body, counts, opt_block(a), opt_block(b)),
        2 => call_push(rt, image, body, counts),
        3 => call_assume(rt, image, body, counts),
        4 => call_pop(rt, image, body, counts, BasicBlockId(a)),
        5 => call_until(rt, image, body, counts, a, BasicBlockId(b)),
        _ => counts,
    }
}

// A command, and the counts behind it.
pub fn run(
    rt: &impl Print,
    image: &[u8],
    body: &mut [u16; BODY_WORDS],
    counts: Counts,
    command: Command,
) -> Counts {
    if command.op == 6 {
        if command.a == 5 {
            return poke_count(counts, command.b, command.c);
        }
        set_word(body, command);
        return counts;
    }
    let next = call(rt, image, body, counts, command);
    print_counts(rt, next);
    end_sums(rt, body);
    next
}
