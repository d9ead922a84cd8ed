// The parts of the program's input, one behind the other: each begins with four bytes, big-endian, that say how many follow them. What is missing at the end is not there.
#![tactic(auto)]

ghost use Rattle.std.specs.Prelude.{◌≡◌, ◌+◌, ◌≤◌, ◌^◌, ◌<◌, length};
ghost use Rattle.reading_input.specs.Parts.{part_end, past_or_end, word_or0, InputParted};

use image::word_at;

// Where the sheet, the name table and the text end, where the text begins, and the expected type.
#[derive(Clone, Copy)]
pub struct InputParts {
    pub sheet: usize,
    pub names: usize,
    pub expected: u16,
    pub text: usize,
    pub end: usize,
}

// So many bytes behind a place, or the end.
fn behind(end: usize, from: usize, many: usize) -> usize
    requires { from ≤ end }
    ensures { result ≡ past_or_end end from many }
{
    if end - from < many {
        return end;
    }
    from + many
}

// Where the part ends that begins at a place.
fn part_end(input: &[u8], from: usize) -> usize
    requires { from ≤ length input.now }
    ensures { result ≡ part_end input.now from }
{
    if input.len() - from < 4 {
        return input.len();
    }
    let high = word_at(input, from) as usize;
    let low = word_at(input, from + 2) as usize;
    behind(input.len(), from + 4, high * 65536 + low)
}

// The big-endian word at a place, or 0 where it is not whole.
fn word_or_0(input: &[u8], at: usize) -> u16
    requires { at ≤ length input.now }
    ensures { result ≡ word_or0 input.now at }
{
    if input.len() - at < 2 {
        return 0;
    }
    word_at(input, at)
}

// The sheet, the name table, the expected type and the text.
pub fn parts_of(input: &[u8]) -> InputParts
    ensures { InputParted input.now result }
{
    let sheet = part_end(input, 0);
    let names = part_end(input, sheet);
    let expected = word_or_0(input, names);
    let from = behind(input.len(), names, 2);
    let end = part_end(input, from);
    let text = behind(end, from, 4);
    InputParts {
        sheet,
        names,
        expected,
        text,
        end,
    }
}
