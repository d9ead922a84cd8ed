// Words: names and keywords. A word of at most eight bytes is compared as the number whose bytes they are, the lowest first.
ghost use Rattle.std.specs.Prelude.{◌≡◌, true, map, ◌+◌, ◌<◌, ◌≤◌, ◌^◌, length, drop};
ghost use Rattle.image.specs.Bytes.{little_endian};
ghost use Rattle.image.specs.Lists.{member, all_in};
ghost use Rattle.text_chars.specs.Bytes.{run};
ghost use Rattle.pattern_words.specs.Words.{is_between, is_digit, is_letter, begins_word, in_word, keywords, never_raw, is_one_of, piece, word_of, ends_prefix, is_raw, raw_piece, plain_piece, word_piece};

use crate::{Kind, Piece};
use text_chars::{byte_of, is_in};

const UNDERSCORE: u64 = 0x5f;

const REF: u64 = 0x666572;

const MUT: u64 = 0x74756d;

const TRUE: u64 = 0x65757274;

const FALSE: u64 = 0x65736c6166;

const KEYWORDS: [u64; 47] = [
    0x7361,
    0x636e797361,
    0x7469617761,
    0x6b61657262,
    0x74736e6f63,
    0x65756e69746e6f63,
    0x6574617263,
    0x6e7964,
    0x65736c65,
    0x6d756e65,
    0x6e7265747865,
    0x6e66,
    0x726f66,
    0x6669,
    0x6c706d69,
    0x6e69,
    0x74656c,
    0x706f6f6c,
    0x686374616d,
    0x646f6d,
    0x65766f6d,
    0x627570,
    0x6e7275746572,
    0x666c6573,
    0x666c6553,
    0x636974617473,
    0x746375727473,
    0x7265707573,
    0x7469617274,
    0x65707974,
    0x656661736e75,
    0x657375,
    0x6572656877,
    0x656c696877,
    0x7463617274736261,
    0x656d6f636562,
    0x786f62,
    0x6f64,
    0x6c616e6966,
    0x6f7263616d,
    0x656469727265766f,
    0x76697270,
    0x797274,
    0x666f65707974,
    0x64657a69736e75,
    0x6c617574726976,
    0x646c656979,
];

const NEVER_RAW: [u64; 5] = [0x5f, 0x6574617263, 0x666c6573, 0x666c6553, 0x7265707573];

pub fn is_between(low: u8, high: u8, b: u8) -> bool
    ensures { result ≡ is_between low high b }
{
    if b < low {
        return false;
    }
    b <= high
}

pub fn is_digit(b: u8) -> bool
    ensures { result ≡ is_digit b }
{
    is_between(b'0', b'9', b)
}

pub fn is_letter(b: u8) -> bool
    ensures { result ≡ is_letter b }
{
    if is_between(b'a', b'z', b) {
        return true;
    }
    is_between(b'A', b'Z', b)
}

pub fn begins_word(b: u8) -> bool
    ensures { result ≡ begins_word b }
{
    if is_letter(b) {
        return true;
    }
    b == b'_'
}

pub fn is_in_word(b: u8) -> bool
    ensures { result ≡ in_word b }
{
    if begins_word(b) {
        return true;
    }
    is_digit(b)
}

// How many bytes a word has that begins at `from`.
fn word_run(bytes: &[u8], from: usize) -> usize
    requires { from ≤ length bytes.now }
    ensures { result ≡ run in_word (drop from bytes.now) }
{
    for at in from..bytes.len() {
        if !is_in_word(bytes[at]) {
            return at - from;
        }
    }
    bytes.len() - from
}

// The number whose bytes a word's are.
fn word_number(word: &[u8]) -> u64
    requires { length word.now ≤ 8 }
    ensures { result ≡ little_endian word.now }
{
    let mut number: u64 = 0;
    for at in (0..word.len()).rev() {
        number = number * 256 + (word[at] as u64);
    }
    number
}

fn is_keyword(number: u64) -> bool
    ensures { result ≡ member number (map little_endian keywords) }
{
    is_in(number, &KEYWORDS)
}

fn is_never_raw(number: u64) -> bool
    ensures { result ≡ member number (map little_endian never_raw) }
{
    is_in(number, &NEVER_RAW)
}

fn piece_as(kind: Kind, size: usize) -> Piece
    ensures { result ≡ piece kind size }
{
    Piece { kind, size }
}

// What a word is.
fn word_of(word: &[u8], at: usize) -> Piece
    requires { all_in in_word word.now ≡ true }
    ensures { result ≡ word_of at (length word.now) word.now }
{
    let size = word.len();
    if 8 < size {
        return piece_as(Kind::Name(at), size);
    }
    let number = word_number(word);
    if number == UNDERSCORE {
        return piece_as(Kind::Underscore, size);
    }
    if number == REF {
        return piece_as(Kind::Ref, size);
    }
    if number == MUT {
        return piece_as(Kind::Mut, size);
    }
    if number == TRUE {
        return piece_as(Kind::True, size);
    }
    if number == FALSE {
        return piece_as(Kind::False, size);
    }
    if is_keyword(number) {
        return piece_as(Kind::Fails, 0);
    }
    piece_as(Kind::Name(at), size)
}

// A word that is no name behind `r#`.
fn is_reserved(word: &[u8]) -> bool
    requires { all_in in_word word.now ≡ true }
    ensures { result ≡ is_one_of word.now never_raw }
{
    if 8 < word.len() {
        return false;
    }
    is_never_raw(word_number(word))
}

fn ends_prefix(b: u8) -> bool
    ensures { result ≡ ends_prefix b }
{
    if b == b'#' {
        return true;
    }
    if b == b'\'' {
        return true;
    }
    b == b'"'
}

fn is_raw(bytes: &[u8]) -> bool
    ensures { result ≡ is_raw bytes.now }
{
    if byte_of(bytes, 0) != b'r' {
        return false;
    }
    if byte_of(bytes, 1) != b'#' {
        return false;
    }
    begins_word(byte_of(bytes, 2))
}

fn raw_piece(bytes: &[u8], at: usize) -> Piece
    requires { (2 ≤ length bytes.now) × (at + length bytes.now < 2 ^ 64) }
    ensures { result ≡ raw_piece at bytes.now (run in_word (drop 2 bytes.now)) }
{
    let size = word_run(bytes, 2);
    let end = size + 2;
    if is_reserved(&bytes[2..end]) {
        return Piece {
            kind: Kind::Fails,
            size: 0,
        };
    }
    Piece {
        kind: Kind::Name(at + 2),
        size: end,
    }
}

fn plain_piece(bytes: &[u8], at: usize) -> Piece
    ensures { result ≡ plain_piece at bytes.now (run in_word bytes.now) }
{
    let size = word_run(bytes, 0);
    if ends_prefix(byte_of(bytes, size)) {
        return Piece {
            kind: Kind::Fails,
            size: 0,
        };
    }
    word_of(&bytes[..size], at)
}

// The token that begins with a word.
pub fn word_piece(bytes: &[u8], at: usize) -> Piece
    requires { at + length bytes.now < 2 ^ 64 }
    ensures { result ≡ word_piece at bytes.now }
{
    if is_raw(bytes) {
        return raw_piece(bytes, at);
    }
    plain_piece(bytes, at)
}
