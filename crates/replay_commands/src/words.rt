// The words of a body's tables, and the counts, that a script sets.
use super::Command;
use body_tables::{BODY_WORDS, ENTRIES, LOCALS, SCOPES, STATEMENTS};
use mir::Counts;

// The word i of a table, where there is one.
pub fn poke(table: &mut [u16], i: u16, word: u16) {
    let at = i as usize;
    if at < table.len() {
        table[at] = word;
    }
}

// The count i.
pub fn poke_count(counts: Counts, i: u16, count: u16) -> Counts {
    let mut next = counts;
    match i {
        0 => next.blocks = count,
        1 => next.statements = count,
        2 => next.locals = count,
        3 => next.scopes = count,
        4 => next.entries = count,
        _ => {}
    }
    next
}

// The word `at` of a body, where it stands before `end`.
fn poke_before(body: &mut [u16; BODY_WORDS], at: usize, end: usize, word: u16) {
    if at < end && at < BODY_WORDS {
        body[at] = word;
    }
}

// The word b of the table a.
pub fn set_word(body: &mut [u16; BODY_WORDS], command: Command) {
    let table = command.a;
    let i = command.b as usize;
    let word = command.c;
    match table {
        0 => poke_before(body, i, STATEMENTS, word),
        1 => poke_before(body, STATEMENTS + i, LOCALS, word),
        2 => poke_before(body, LOCALS + i, SCOPES, word),
        3 => poke_before(body, SCOPES + i, ENTRIES, word),
        4 => poke_before(body, ENTRIES + i, BODY_WORDS, word),
        _ => {}
    }
}
