// Each call on a pattern, on the body of a script: it prints the answer, and answers the counts behind it.
use super::answers::print_match;
use body_tables::BODY_WORDS;
use image::{BindingId, PatId};
use mir::{BasicBlockId, Counts};
use pattern_assignment_call::pattern_match_assignment;
use pattern_entering::VISIT_WORDS;
use pattern_match_call::pattern_match;
use place::LocalId;
use replay_commands::call_words::place_of;
use self_param_call::match_self_param;

pub fn call_match(
    rt: &impl Print,
    image: &[u8],
    bindings: &[u16],
    body: &mut [u16; BODY_WORDS],
    visits: &mut [u16; VISIT_WORDS],
    counts: Counts,
    handed: &[u16; 35],
    p: PatId,
    current: BasicBlockId,
    els: Option<BasicBlockId>,
) -> Counts {
    let place = place_of(handed);
    let answer = pattern_match(
        image, bindings, body, visits, counts, p, current, els, place,
    );
    print_match(rt, answer, counts)
}

pub fn call_assignment(
    rt: &impl Print,
    image: &[u8],
    bindings: &[u16],
    body: &mut [u16; BODY_WORDS],
    visits: &mut [u16; VISIT_WORDS],
    counts: Counts,
    handed: &[u16; 35],
    p: PatId,
    current: BasicBlockId,
) -> Counts {
    let place = place_of(handed);
    let answer = pattern_match_assignment(image, bindings, body, visits, counts, p, current, place);
    print_match(rt, answer, counts)
}

pub fn call_self(
    rt: &impl Print,
    image: &[u8],
    bindings: &[u16],
    body: &mut [u16; BODY_WORDS],
    counts: Counts,
    b: BindingId,
    current: BasicBlockId,
    l: LocalId,
) -> Counts {
    let answer = match_self_param(image, bindings, body, counts, b, current, l);
    print_match(rt, answer, counts)
}
