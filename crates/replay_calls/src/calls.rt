// Each call, on the body of a script: it prints the answer, and answers the counts behind it.
use body_drop_until_scope_call::drop_until_scope;
use body_merge_blocks_call::merge_blocks;
use body_pop_and_drop_call::pop_and_drop;
use body_pop_assume_dropped_call::pop_assume_dropped;
use body_push_drop_scope_call::push_drop_scope;
use body_tables::BODY_WORDS;
use body_temp_call::temp;
use mir::{BasicBlockId, Counts};
use replay_answers::{print_drop, print_merge, print_scope, print_temp};

pub fn call_temp(
    rt: &impl Print,
    image: &[u8],
    body: &mut [u16; BODY_WORDS],
    counts: Counts,
    word: u16,
    block: BasicBlockId,
) -> Counts {
    let answer = temp(image, body, counts, word, block);
    print_temp(rt, answer, counts)
}

pub fn call_merge(
    rt: &impl Print,
    image: &[u8],
    body: &mut [u16; BODY_WORDS],
    counts: Counts,
    x: Option<BasicBlockId>,
    y: Option<BasicBlockId>,
) -> Counts {
    let answer = merge_blocks(image, body, counts, x, y);
    print_merge(rt, answer, counts)
}

pub fn call_push(
    rt: &impl Print,
    image: &[u8],
    body: &mut [u16; BODY_WORDS],
    counts: Counts,
) -> Counts {
    let answer = push_drop_scope(image, body, counts);
    print_scope(rt, answer, counts)
}

pub fn call_assume(
    rt: &impl Print,
    image: &[u8],
    body: &mut [u16; BODY_WORDS],
    counts: Counts,
) -> Counts {
    let answer = pop_assume_dropped(image, body, counts);
    print_scope(rt, answer, counts)
}

pub fn call_pop(
    rt: &impl Print,
    image: &[u8],
    body: &mut [u16; BODY_WORDS],
    counts: Counts,
    block: BasicBlockId,
) -> Counts {
    let answer = pop_and_drop(image, body, counts, block);
    print_drop(rt, answer, counts)
}

pub fn call_until(
    rt: &impl Print,
    image: &[u8],
    body: &mut [u16; BODY_WORDS],
    counts: Counts,
    i: u16,
    block: BasicBlockId,
) -> Counts {
    let answer = drop_until_scope(image, body, counts, i, block);
    print_drop(rt, answer, counts)
}
