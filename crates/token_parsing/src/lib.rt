// A text's token from a position on: it is read, and its move is made on the tables.
#![tactic(auto)]

ghost use Rattle.std.specs.Prelude.{◌≤◌, length};
ghost use Rattle.token_parsing.specs.Standing.{ParsingAt, TokenRead};

use node_rows::NODE_WORDS;
use parsing_behind::top_kind;
use parsing_performing::perform;
use parsing_steps::{ParseState, ParseStep};
use spelled_names::NAME_BYTES;
use token_copying::token_move;
use token_next::token_row;

// What a token leads to, the byte behind it, and how many bytes of names are in use then.
#[derive(Clone, Copy)]
pub struct TokenStep {
    pub step: ParseStep,
    pub next: usize,
    pub named: usize,
}

// The token from a position on.
pub fn read_token(
    text: &[u8],
    nodes: &mut [u16; NODE_WORDS],
    stack: &mut [u16; NODE_WORDS],
    names: &mut [u8; NAME_BYTES],
    p: ParseState,
    at: usize,
    named: usize,
) -> TokenStep
    requires { (length text.now ≤ 16384) × ParsingAt text.now names.old named stack.old nodes.old at p }
    ensures { TokenRead text.now at result.step result.next result.named names.new stack.new nodes.new }
{
    let token = token_row(text, at);
    let mark = token.mark;
    let from = token.from;
    let to = token.to;
    let state = p.state;
    let held = p.held;
    let depth = p.depth;
    let rows = p.rows;
    let top = top_kind(stack, depth);
    let moved = token_move(text, names, named, state, held, top, token);
    let made = moved.made;
    let spelled = moved.named;
    let step = perform(stack, nodes, depth, rows, made, mark, from);
    TokenStep {
        step,
        next: to as usize,
        named: spelled,
    }
}
