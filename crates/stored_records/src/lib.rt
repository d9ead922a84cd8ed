// A stored list of records, taken from a reader. A record is a byte, its sort, and an image; what a sort has besides stands behind it. An image is two numbers of four
// bytes, big-endian, and then as many bytes as the first says: it is these bytes, and behind them as many zeros as the second says.
#![tactic(auto)]

ghost use Rattle.std.specs.Prelude.{◌+◌, ◌*◌, ◌≤◌, ◌<◌, length};
ghost use Rattle.stored_records.specs.Entries.{Fits, ReadWithin};

use image::word_at;
use std::io::Read;

// The sort of the next record, or 0 where the list has ended.
pub fn next_sort(input: &mut impl Read) -> u8 {
    let mut sort = [0u8; 1];
    let _ = input.read_exact(&mut sort);
    sort[0]
}

// The next number of four bytes, big-endian, or 0 where the list has ended.
pub fn next_number(input: &mut impl Read) -> u32 {
    let mut head = [0u8; 4];
    let _ = input.read_exact(&mut head);
    let high = word_at(&head, 0) as u32;
    let low = word_at(&head, 2) as u32;
    high * 65536 + low
}

// The first words that the bytes hold: so many.
fn words_of(bytes: &[u8], words: &mut [u16], count: usize)
    requires { (count ≤ length words.old) × (2 * count ≤ length bytes.now) }
{
    for i in 0..count {
        words[i] = word_at(bytes, 2 * i);
    }
}

// So many words, where they fit. How many; none where the list has ended, or they do not fit.
fn read_words(
    input: &mut impl Read,
    bytes: &mut [u8],
    words: &mut [u16],
    count: usize,
) -> Option<usize>
    requires { 2 * length words.old ≤ length bytes.old }
    ensures { ReadWithin result (length words.old) }
{
    if words.len() < count {
        return None;
    }
    let end = 2 * count;
    if input.read_exact(&mut bytes[..end]).is_err() {
        return None;
    }
    words_of(bytes, words, count);
    Some(count)
}

// A number of four bytes, big-endian, and as many words of two bytes, big-endian. How many; none where the list has ended, or they do not fit.
pub fn next_words(input: &mut impl Read, words: &mut [u16]) -> Option<usize>
    requires { length words.old ≤ 4096 }
    ensures { ReadWithin result (length words.old) }
{
    let mut bytes = [0u8; 8192];
    let count = next_number(input) as usize;
    read_words(input, &mut bytes, words, count)
}

// An image of n bytes and z zeros. How many bytes it has; none where the list has ended, or they do not fit.
fn read_entry(input: &mut impl Read, buffer: &mut [u8], n: usize, z: usize) -> Option<usize>
    requires { (n < 4294967296) × (z < 4294967296) }
    ensures { Fits result (length buffer.old) }
{
    let end = n + z;
    if buffer.len() < end {
        return None;
    }
    if input.read_exact(&mut buffer[..n]).is_err() {
        return None;
    }
    buffer[n..end].fill(0);
    Some(end)
}

// The image of the record whose sort was read. How many bytes it has; none where the list has ended, or they do not fit.
pub fn next_entry(input: &mut impl Read, buffer: &mut [u8]) -> Option<usize>
    ensures { Fits result (length buffer.old) }
{
    let n = next_number(input) as usize;
    let z = next_number(input) as usize;
    read_entry(input, buffer, n, z)
}

// A number of four bytes, big-endian, and as many bytes. How many bytes it has; none where the list has ended, or they do not fit.
pub fn next_bytes(input: &mut impl Read, buffer: &mut [u8]) -> Option<usize>
    ensures { Fits result (length buffer.old) }
{
    let n = next_number(input) as usize;
    read_entry(input, buffer, n, 0)
}
