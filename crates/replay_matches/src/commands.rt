// A command of a script on patterns: a call, which prints a line, or a word that is handed in.
use super::matches::{call_assignment, call_match, call_self};
use body_tables::BODY_WORDS;
use image::{BindingId, PatId};
use mir::{BasicBlockId, Counts};
use pattern_entering::VISIT_WORDS;
use place::LocalId;
use replay_answers::{end_line, print_counts, print_sum, print_sums};
use replay_calls::commands::run;
use replay_commands::call_words::binding_words;
use replay_commands::words::poke;
use replay_commands::{Command, opt_block};

// A call, which prints its answer, and the counts behind it: 7 pattern_match (pattern a, block b, else c or 65535), 8 pattern_match_assignment (pattern a, block b),
// 9 match_self_param (binding a, block b, local c).
fn call(
    rt: &impl Print,
    image: &[u8],
    bindings: &[u16],
    body: &mut [u16; BODY_WORDS],
    visits: &mut [u16; VISIT_WORDS],
    counts: Counts,
    handed: &[u16; 35],
    command: Command,
) -> Counts {
    let op = command.op;
    let p = PatId(command.a);
    let own = BindingId(command.a);
    let b = BasicBlockId(command.b);
    let els = opt_block(command.c);
    let l = LocalId(command.c);
    match op {
        7 => call_match(rt, image, bindings, body, visits, counts, handed, p, b, els),
        8 => call_assignment(rt, image, bindings, body, visits, counts, handed, p, b),
        9 => call_self(rt, image, bindings, body, counts, own, b, l),
        _ => counts,
    }
}

// A call with so many of the bindings' words as are handed in: all where that is more than there are.
fn call_with(
    rt: &impl Print,
    image: &[u8],
    bindings: &[u16],
    body: &mut [u16; BODY_WORDS],
    visits: &mut [u16; VISIT_WORDS],
    counts: Counts,
    handed: &[u16; 35],
    command: Command,
) -> Counts {
    let n = binding_words(handed) as usize;
    if bindings.len() < n {
        return call(rt, image, bindings, body, visits, counts, handed, command);
    }
    call(
        rt,
        image,
        &bindings[..n],
        body,
        visits,
        counts,
        handed,
        command,
    )
}

// A call on a pattern, and its line: behind the sums of the body's tables stand those of the visits and of the bindings' locals.
fn run_match(
    rt: &impl Print,
    image: &[u8],
    bindings: &[u16; 256],
    body: &mut [u16; BODY_WORDS],
    visits: &mut [u16; VISIT_WORDS],
    counts: Counts,
    handed: &[u16; 35],
    command: Command,
) -> Counts {
    let next = call_with(rt, image, bindings, body, visits, counts, handed, command);
    print_counts(rt, next);
    print_sums(rt, body);
    print_sum(rt, visits);
    end_line(rt, bindings);
    next
}

// A command of either sort, and the counts behind it. Of the tables that op 6 sets words of, 6 is the bindings' locals and 7 the words that are handed in.
pub fn run_command(
    rt: &impl Print,
    image: &[u8],
    bindings: &mut [u16; 256],
    body: &mut [u16; BODY_WORDS],
    visits: &mut [u16; VISIT_WORDS],
    counts: Counts,
    handed: &mut [u16; 35],
    command: Command,
) -> Counts {
    let op = command.op;
    let table = command.a;
    if op == 6 && table == 6 {
        poke(bindings, command.b, command.c);
        return counts;
    }
    if op == 6 && table == 7 {
        poke(handed, command.b, command.c);
        return counts;
    }
    if op < 7 {
        return run(rt, image, body, counts, command);
    }
    run_match(rt, image, bindings, body, visits, counts, handed, command)
}
