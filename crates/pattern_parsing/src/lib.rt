// A pattern's text is read to its nodes, in the order in which they close, or to where it fails.
#![tactic(auto)]

ghost use Rattle.std.specs.Prelude.{◌≡◌, ◌≤◌, length};
ghost use Rattle.pattern_parsing.specs.Parsing.{fresh_state, ParsesTo};

use node_rows::NODE_WORDS;
use parsing_machine::ReadState;
use parsing_moves::HeldRow;
use parsing_steps::{ParseState, ParseStep};
use spelled_names::NAME_BYTES;
use token_parsing::read_token;

// Before the first token.
fn fresh() -> ParseState
    ensures { result ≡ fresh_state }
{
    ParseState {
        state: ReadState::Begin,
        held: HeldRow {
            at: 0,
            more: 0,
            spot: 0,
            from: 0,
            to: 0,
        },
        depth: 0,
        rows: 0,
    }
}

// Token by token. How many nodes the text has, or the position at which it fails.
fn parse_tokens(
    text: &[u8],
    nodes: &mut [u16; NODE_WORDS],
    stack: &mut [u16; NODE_WORDS],
    names: &mut [u8; NAME_BYTES],
) -> Result<usize, u16>
    requires { length text.now ≤ 16384 }
    ensures { ParsesTo text.now result names.new nodes.new }
{
    let mut p = fresh();
    let mut at = 0;
    let mut named = 0;
    loop {
        let read = read_token(text, nodes, stack, names, p, at, named);
        at = read.next;
        named = read.named;
        let step = read.step;
        match step {
            ParseStep::Going(q) => p = q,
            ParseStep::Ended(n) => return Ok(n),
            ParseStep::Halted(place) => return Err(place),
        }
    }
}

// The rows of a text's nodes; their names are spelled in `names`. How many there are, or the position at which the text fails.
pub fn parse_pattern(
    text: &[u8],
    nodes: &mut [u16; NODE_WORDS],
    stack: &mut [u16; NODE_WORDS],
    names: &mut [u8; NAME_BYTES],
) -> Result<usize, u16>
    ensures { ParsesTo text.now result names.new nodes.new }
{
    if 16384 < text.len() {
        return Err(16384);
    }
    parse_tokens(text, nodes, stack, names)
}
