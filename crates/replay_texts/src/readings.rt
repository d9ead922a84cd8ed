// The calls of a record: a name table, which stands behind the sheet, and texts, each with an expected type. The answer to each is a line, `image` and its bytes in
// hexadecimal, or the refusal.
use draft_tables::DRAFT_WORDS;
use image::word_at;
use image_writing::IMAGE_BYTES;
use node_rows::{MAKING_WORDS, NODE_WORDS};
use node_typing::WAITING_WORDS;
use reading_call::read_pattern;
use reading_lines::{print_image, print_refusal};
use reading_typed::ReadRefusal;
use spelled_names::NAME_BYTES;
use std::io::Read;
use stored_records::{next_bytes, next_number};

// A call is made, and its answer printed.
fn print_reading(
    rt: &(impl Print + Eprint),
    text: &[u8],
    sheet: &[u8],
    names: &[u8],
    expected: u16,
    spelled: &mut [u8; NAME_BYTES],
    nodes: &mut [u16; NODE_WORDS],
    stack: &mut [u16; NODE_WORDS],
    waiting: &mut [u16; WAITING_WORDS],
    makings: &mut [u16; MAKING_WORDS],
    draft: &mut [u16; DRAFT_WORDS],
    image: &mut [u8; IMAGE_BYTES],
) {
    match read_pattern(
        text, sheet, names, expected, spelled, nodes, stack, waiting, makings, draft, image,
    ) {
        Ok(count) => print_image(rt, image, count),
        Err(ReadRefusal { number, position }) => print_refusal(rt, number, position),
    }
}

// The next word, big-endian, or 0 where the list has ended.
fn next_word(input: &mut impl Read) -> u16 {
    let mut bytes = [0u8; 2];
    let _ = input.read_exact(&mut bytes);
    word_at(&bytes, 0)
}

// So many texts, with their expected types: answers whether they fitted. The tables that reading takes are made once.
fn replay_texts(
    rt: &(impl Print + Eprint),
    input: &mut impl Read,
    sheet: &[u8],
    names: &[u8],
    many: u32,
) -> bool {
    let mut text = [0u8; 32768];
    let mut spelled = [0u8; NAME_BYTES];
    let mut nodes = [0u16; NODE_WORDS];
    let mut stack = [0u16; NODE_WORDS];
    let mut waiting = [0u16; WAITING_WORDS];
    let mut makings = [0u16; MAKING_WORDS];
    let mut draft = [0u16; DRAFT_WORDS];
    let mut image = [0u8; IMAGE_BYTES];
    for _ in 0..many {
        let expected = next_word(input);
        let Some(n) = next_bytes(input, &mut text) else {
            return false;
        };
        print_reading(
            rt,
            &text[..n],
            sheet,
            names,
            expected,
            &mut spelled,
            &mut nodes,
            &mut stack,
            &mut waiting,
            &mut makings,
            &mut draft,
            &mut image,
        );
    }
    true
}

// The calls on this sheet, the rest of which comes next: answers whether they fitted.
pub fn replay_reading(rt: &(impl Print + Eprint), input: &mut impl Read, sheet: &[u8]) -> bool {
    let mut names = [0u8; 32768];
    match next_bytes(input, &mut names) {
        None => false,
        Some(n) => {
            let many = next_number(input);
            replay_texts(rt, input, sheet, &names[..n], many)
        }
    }
}
