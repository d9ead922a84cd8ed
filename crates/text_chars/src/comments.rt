// Comments that may stand between tokens.
ghost use Rattle.std.specs.Prelude.{◌≡◌, ◌&&◌, ◌+◌, ◌<◌, ◌^◌, eqb, drop};
ghost use Rattle.text_chars.specs.Bytes.{run};
ghost use Rattle.text_chars.specs.Gaps.{in_line, is_line_doc, is_block_doc, opens, closes, depth_behind, unpaired, block_from, in_utf8, line_gap, block_gap, comment_of};

use crate::scalars::is_utf8;
use crate::{Gap, byte_of};

// How many bytes behind the first stand before the line's end.
fn line_run(bytes: &[u8]) -> usize
    ensures { result ≡ run in_line (drop 1 bytes.now) }
{
    for at in 1..bytes.len() {
        if bytes[at] == b'\n' {
            return at - 1;
        }
    }
    bytes.len().saturating_sub(1)
}

fn is_line_doc(bytes: &[u8]) -> bool
    ensures { result ≡ is_line_doc bytes.now }
{
    let third = byte_of(bytes, 2);
    if third == b'!' {
        return true;
    }
    if third == b'/' {
        return byte_of(bytes, 3) != b'/';
    }
    false
}

fn is_block_doc(bytes: &[u8]) -> bool
    ensures { result ≡ is_block_doc bytes.now }
{
    let third = byte_of(bytes, 2);
    if third == b'!' {
        return true;
    }
    if third != b'*' {
        return false;
    }
    let fourth = byte_of(bytes, 3);
    if fourth == b'*' {
        return false;
    }
    fourth != b'/'
}

fn is_open(b: u8, c: u8) -> bool
    ensures { result ≡ opens b c }
{
    if b == b'/' { c == b'*' } else { false }
}

fn is_close(b: u8, c: u8) -> bool
    ensures { result ≡ closes b c }
{
    if b == b'*' { c == b'/' } else { false }
}

// The two bytes close the comment itself.
fn is_end(depth: usize, b: u8, c: u8) -> bool
    ensures { result ≡ (closes b c && eqb depth 0) }
{
    if is_close(b, c) {
        return depth == 0;
    }
    false
}

fn depth_behind(depth: usize, b: u8, c: u8) -> usize
    requires { depth + 1 < 2 ^ 64 }
    ensures { result ≡ depth_behind depth b c }
{
    if is_close(b, c) {
        if depth == 0 {
            return 0;
        }
        return depth - 1;
    }
    if is_open(b, c) {
        return depth + 1;
    }
    depth
}

fn unpaired_byte(b: u8, c: u8) -> u8
    ensures { result ≡ unpaired b c }
{
    if is_close(b, c) {
        return 0;
    }
    if is_open(b, c) {
        return 0;
    }
    c
}

// A block comment, to its end: nested ones are counted.
fn block_end(bytes: &[u8]) -> Gap
    ensures { result ≡ block_from 2 0 0 (drop 2 bytes.now) }
{
    let mut depth: usize = 0;
    let mut before: u8 = 0;
    for at in 2..bytes.len() {
        let b = bytes[at];
        if is_end(depth, before, b) {
            return Gap::Of(at);
        }
        depth = depth_behind(depth, before, b);
        before = unpaired_byte(before, b);
    }
    Gap::Broken
}

fn in_utf8(bytes: &[u8], gap: Gap) -> Gap
    ensures { result ≡ in_utf8 bytes.now gap }
{
    match gap {
        Gap::Of(more) => {
            if is_utf8(bytes, more) {
                return Gap::Of(more);
            }
            Gap::Broken
        }
        Gap::Nothing => Gap::Nothing,
        Gap::Broken => Gap::Broken,
    }
}

fn line_gap(bytes: &[u8]) -> Gap
    ensures { result ≡ line_gap bytes.now }
{
    if is_line_doc(bytes) {
        return Gap::Broken;
    }
    in_utf8(bytes, Gap::Of(line_run(bytes)))
}

fn block_gap(bytes: &[u8]) -> Gap
    ensures { result ≡ block_gap bytes.now }
{
    if is_block_doc(bytes) {
        return Gap::Broken;
    }
    in_utf8(bytes, block_end(bytes))
}

// The comment with which the bytes begin.
pub fn comment_of(bytes: &[u8]) -> Gap
    ensures { result ≡ comment_of bytes.now }
{
    if byte_of(bytes, 0) != b'/' {
        return Gap::Nothing;
    }
    let next = byte_of(bytes, 1);
    if next == b'/' {
        return line_gap(bytes);
    }
    if next == b'*' {
        return block_gap(bytes);
    }
    Gap::Nothing
}
