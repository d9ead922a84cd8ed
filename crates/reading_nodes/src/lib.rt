// What is handed in beside a text's nodes is tested, and then the nodes are read.
#![tactic(auto)]

ghost use Rattle.node_rows.specs.Nodes.{nodes_in};
ghost use Rattle.token_parsing.specs.Standing.{NodesParsed};
ghost use Rattle.reading_passes.specs.Passes.{read_nodes};
ghost use Rattle.reading_typed.specs.Answers.{ReadsAs};

use draft_tables::DRAFT_WORDS;
use image_writing::IMAGE_BYTES;
use name_rules::names_hold;
use node_rows::{MAKING_WORDS, NODE_WORDS};
use node_typing::WAITING_WORDS;
use reading_typed::{ReadRefusal, read_typed};
use type_sheets::read_sheet;

// Numbers 1 and 2 for sheet, type and name table, and then the passes over the nodes.
pub fn read_nodes(
    text: &[u8],
    sheet: &[u8],
    names: &[u8],
    expected: u16,
    spelled: &[u8],
    nodes: &[u16; NODE_WORDS],
    n: usize,
    waiting: &mut [u16; WAITING_WORDS],
    makings: &mut [u16; MAKING_WORDS],
    draft: &mut [u16; DRAFT_WORDS],
    image: &mut [u8; IMAGE_BYTES],
) -> Result<usize, ReadRefusal>
    requires { NodesParsed text.now spelled.now nodes.now n }
    ensures { ReadsAs (read_nodes sheet.now names.now expected (nodes_in text.now spelled.now nodes.now n)) image.old result image.new }
{
    let Some(tables) = read_sheet(sheet) else {
        return Err(ReadRefusal {
            number: 1,
            position: 65535,
        });
    };
    if tables.types.count <= expected {
        return Err(ReadRefusal {
            number: 2,
            position: 65535,
        });
    }
    if !names_hold(sheet, tables, names) {
        return Err(ReadRefusal {
            number: 2,
            position: 65535,
        });
    }
    read_typed(
        text, sheet, tables, names, expected, spelled, nodes, n, waiting, makings, draft, image,
    )
}
