// Reads a pattern's text on standard input, and writes its image, or `refused` with the number, the position and 0. The input has the type sheet and the name table, each
// of which begins with its own length in four bytes, the expected type in two, and the text behind its length in four; numbers are big-endian. What is missing at the end
// counts as empty, and what follows is not looked at. Whatever does not fit the buffer is refused by what fits.
#![tactic(auto)]

ghost use Rattle.std.specs.Prelude.{◌≤◌, length};
ghost use Rattle.reading_call.specs.Calls.{PatternReads};

use draft_tables::DRAFT_WORDS;
use image_writing::IMAGE_BYTES;
use node_rows::{MAKING_WORDS, NODE_WORDS};
use node_typing::WAITING_WORDS;
use program_io::{read_input, write_output};
use reading_call::read_pattern;
use reading_input::parts_of;
use reading_lines::print_refusal;
use reading_typed::ReadRefusal;
use spelled_names::NAME_BYTES;

// The image of a text, in the lent bytes, or the refusal: the tables that reading takes are made here.
fn read_text(
    text: &[u8],
    sheet: &[u8],
    names: &[u8],
    expected: u16,
    image: &mut [u8; IMAGE_BYTES],
) -> Result<usize, ReadRefusal>
    ensures { PatternReads text.now sheet.now names.now expected image.old result image.new }
{
    let mut spelled = [0u8; NAME_BYTES];
    let mut nodes = [0u16; NODE_WORDS];
    let mut stack = [0u16; NODE_WORDS];
    let mut waiting = [0u16; WAITING_WORDS];
    let mut makings = [0u16; MAKING_WORDS];
    let mut draft = [0u16; DRAFT_WORDS];
    read_pattern(
        text,
        sheet,
        names,
        expected,
        &mut spelled,
        &mut nodes,
        &mut stack,
        &mut waiting,
        &mut makings,
        &mut draft,
        image,
    )
}

// The first bytes are written.
fn write_first(rt: &(impl Print + Eprint), bytes: &[u8], count: usize)
    requires { count ≤ length bytes.now }
{
    write_output(rt, &bytes[..count]);
}

// What the input's text is answered is written.
fn answer(rt: &(impl Print + Eprint), input: &[u8]) {
    let parts = parts_of(input);
    let sheet = parts.sheet;
    let names = parts.names;
    let text = parts.text;
    let end = parts.end;
    let mut image = [0u8; IMAGE_BYTES];
    match read_text(
        &input[text..end],
        &input[..sheet],
        &input[sheet..names],
        parts.expected,
        &mut image,
    ) {
        Ok(count) => write_first(rt, &image, count),
        Err(ReadRefusal { number, position }) => print_refusal(rt, number, position),
    }
}

fn main(rt: HostRuntime) {
    let mut buffer = [0u8; 131072];
    match read_input(&rt, &mut rt.stdin(), &mut buffer) {
        None => {}
        Some(n) => answer(&rt, &buffer[..n]),
    }
}
