// The two passes over a text's nodes, where what is handed in keeps its rules: number 20, or the image, or number 1.
#![tactic(auto)]

ghost use Rattle.pattern_typing.specs.Downward.{type_nodes, typing_of};
ghost use Rattle.node_rows.specs.Nodes.{nodes_in};
ghost use Rattle.token_parsing.specs.Standing.{NodesParsed};
ghost use Rattle.reading_passes.specs.Passes.{emitted_from};
ghost use Rattle.reading_typed.specs.Answers.{TablesRead, ReadsAs};

use draft_tables::DRAFT_WORDS;
use image::Tables;
use image_making::make_image;
use image_writing::IMAGE_BYTES;
use node_rows::{MAKING_WORDS, NODE_WORDS};
use node_typing::{WAITING_WORDS, type_nodes};

// A refusal: its number, and the position in the text, or 65535.
#[derive(Clone, Copy)]
pub struct ReadRefusal {
    pub number: u16,
    pub position: u16,
}

// Number 20 by the pass down over the nodes, or the image by the pass up, or number 1 for a limit.
pub fn read_typed(
    text: &[u8],
    sheet: &[u8],
    tables: Tables,
    names: &[u8],
    expected: u16,
    spelled: &[u8],
    nodes: &[u16; NODE_WORDS],
    n: usize,
    waiting: &mut [u16; WAITING_WORDS],
    makings: &mut [u16; MAKING_WORDS],
    draft: &mut [u16; DRAFT_WORDS],
    image: &mut [u8; IMAGE_BYTES],
) -> Result<usize, ReadRefusal>
    requires { TablesRead sheet.now tables names.now expected × NodesParsed text.now spelled.now nodes.now n }
    ensures { ReadsAs (emitted_from sheet.now (type_nodes sheet.now names.now (nodes_in text.now spelled.now nodes.now n) (typing_of expected))) image.old result image.new }
{
    if let Some(at) = type_nodes(
        sheet, tables, names, spelled, nodes, n, expected, makings, waiting,
    ) {
        return Err(ReadRefusal {
            number: 20,
            position: at,
        });
    }
    match make_image(sheet, tables, text, spelled, makings, n, draft, image) {
        Some(count) => Ok(count),
        None => Err(ReadRefusal {
            number: 1,
            position: 65535,
        }),
    }
}
