// The reader of a pattern's text: it keeps the text by reference, beside the position.
// Each step is thin; the work is `token_at`'s, on a plain slice.
#![tactic(auto)]

ghost use Rattle.std.specs.Prelude.{◌≡◌};
ghost use Rattle.pattern_tokens.specs.Tokens.{token_at};

use pattern_tokens::Token;
use token_reading::token_at;

#[derive(Clone, Copy)]
pub struct Reader<'a> {
    pub text: &'a [u8],
    pub at: usize,
}

// A reader at the beginning of a text.
pub fn new<'a>(text: &'a [u8]) -> Reader<'a>
    ensures { (result.text ≡ text.entry) × (result.at ≡ 0) }
{
    Reader { text, at: 0 }
}

// Where it reads.
pub fn at<'a>(r: Reader<'a>) -> usize
    ensures { result ≡ r.entry.at }
{
    r.at
}

// The same reader at another position.
pub fn moved<'a>(r: Reader<'a>, at: usize) -> Reader<'a>
    ensures { (result.text ≡ r.entry.text) × (result.at ≡ at) }
{
    Reader { text: r.text, at }
}

// The token at the reader's position.
pub fn next<'a>(r: Reader<'a>) -> Token
    ensures { result ≡ token_at r.entry.text.now r.entry.at }
{
    token_at(r.text, r.at)
}

// The token at a position of a text, by a reader: its parameters are plain.
pub fn token_from(text: &[u8], at: usize) -> Token
    ensures { result ≡ token_at text.now at }
{
    next(moved(new(text), at))
}
