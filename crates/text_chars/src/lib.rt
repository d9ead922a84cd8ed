// The characters of a pattern's text and what stands between its tokens.
#![tactic(auto)]

mod comments;
pub mod scalars;

ghost use Rattle.std.specs.Prelude.{◌≡◌};
ghost use Rattle.image.specs.Lists.{member};
ghost use Rattle.text_chars.specs.Bytes.{byte_of};
ghost use Rattle.text_chars.specs.Scalars.{scalar_of};
ghost use Rattle.text_chars.specs.Gaps.{is_whitespace, gap_of, start_of};

// A whitespace character or a comment, by how many bytes it has behind its first; a broken one is a doc comment, not finished or not UTF-8.
#[derive(Clone, Copy)]
pub enum Gap {
    Of(usize),
    Nothing,
    Broken,
}

const WHITESPACE: [u64; 11] = [
    0x9, 0xA, 0xB, 0xC, 0xD, 0x20, 0x85, 0x200E, 0x200F, 0x2028, 0x2029,
];

// The byte k places on, 0 behind the end.
pub fn byte_of(bytes: &[u8], k: usize) -> u8
    ensures { result ≡ byte_of bytes.now k }
{
    if k < bytes.len() { bytes[k] } else { 0 }
}

pub fn is_in(x: u64, table: &[u64]) -> bool
    ensures { result ≡ member x table.now }
{
    table.contains(&x)
}

fn is_whitespace(v: u32) -> bool
    ensures { result ≡ is_whitespace v }
{
    is_in(v as u64, &WHITESPACE)
}

// The scalar value with which the bytes begin, and how many bytes it has behind its first; none where they begin with none.
pub fn scalar_of(bytes: &[u8]) -> Option<(u32, usize)>
    ensures { result ≡ scalar_of bytes.now }
{
    let a = scalars::wide(byte_of(bytes, 0));
    let b = scalars::wide(byte_of(bytes, 1));
    let c = scalars::wide(byte_of(bytes, 2));
    let d = scalars::wide(byte_of(bytes, 3));
    scalars::scalar_from(a, b, c, d)
}

// The whitespace character or comment with which the bytes begin.
fn gap_of(bytes: &[u8]) -> Gap
    ensures { result ≡ gap_of bytes.now }
{
    match scalar_of(bytes) {
        Some((v, more)) => {
            if is_whitespace(v) {
                return Gap::Of(more);
            }
            comments::comment_of(bytes)
        }
        None => Gap::Nothing,
    }
}

// Where the next token begins, or where a comment before it is broken.
pub fn start_of(text: &[u8], at: usize) -> Result<usize, usize>
    ensures { result ≡ start_of text.now at }
{
    let mut rest: usize = 0;
    for i in at..text.len() {
        if rest != 0 {
            rest -= 1;
            continue;
        }
        match gap_of(&text[i..]) {
            Gap::Of(more) => rest = more,
            Gap::Nothing => return Ok(i),
            Gap::Broken => return Err(i),
        }
    }
    Ok(at.max(text.len()))
}
