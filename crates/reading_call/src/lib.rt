// The public call on a pattern's text: every text, sheet, name table and type is taken, and answered by an image or refused by its number and position. What is refused
// writes nothing to the image's bytes. The tables in between are lent, and what they hold before is not looked at.
#![tactic(auto)]

ghost use Rattle.reading_call.specs.Calls.{PatternReads};

use draft_tables::DRAFT_WORDS;
use image_writing::IMAGE_BYTES;
use node_rows::{MAKING_WORDS, NODE_WORDS};
use node_typing::WAITING_WORDS;
use pattern_parsing::parse_pattern;
use reading_nodes::read_nodes;
use reading_typed::ReadRefusal;
use spelled_names::NAME_BYTES;

// The image of a pattern's text, read at the expected type, with the names of a table: number 19 is tried first.
pub fn read_pattern(
    text: &[u8],
    sheet: &[u8],
    names: &[u8],
    expected: u16,
    spelled: &mut [u8; NAME_BYTES],
    nodes: &mut [u16; NODE_WORDS],
    stack: &mut [u16; NODE_WORDS],
    waiting: &mut [u16; WAITING_WORDS],
    makings: &mut [u16; MAKING_WORDS],
    draft: &mut [u16; DRAFT_WORDS],
    image: &mut [u8; IMAGE_BYTES],
) -> Result<usize, ReadRefusal>
    ensures { PatternReads text.now sheet.now names.now expected image.old result image.new }
{
    match parse_pattern(text, nodes, stack, spelled) {
        Err(at) => Err(ReadRefusal {
            number: 19,
            position: at,
        }),
        Ok(n) => read_nodes(
            text, sheet, names, expected, spelled, nodes, n, waiting, makings, draft, image,
        ),
    }
}
