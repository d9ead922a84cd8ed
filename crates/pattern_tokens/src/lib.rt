// What the tokens of a pattern's text are: see specs/ and proofs/.
#![tactic(auto)]

ghost use Rattle.std.specs.Prelude.{◌≡◌, ◌+◌};
ghost use Rattle.text_chars.specs.Bytes.{byte_of};

use pattern_words::Kind;

// A token, the position of its first byte and that behind it.
#[derive(Clone, Copy)]
pub struct Token {
    pub kind: Kind,
    pub from: usize,
    pub to: usize,
}

// The byte so many places behind another.
pub fn byte_behind(bytes: &[u8], at: usize, k: usize) -> u8
    ensures { result ≡ byte_of bytes.now (at + k) }
{
    if bytes.len() <= at {
        return 0;
    }
    if bytes.len() - at <= k {
        return 0;
    }
    bytes[at + k]
}
