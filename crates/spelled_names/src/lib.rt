// Names as they are spelled, copied from a text into one table: a name's own bytes, and `::` before a name that goes on a path.
#![tactic(auto)]

ghost use Rattle.std.specs.Prelude.{◌≡◌, ◌++◌, ◌+◌, ◌-◌, ◌≤◌, length};
ghost use Rattle.text_chars.specs.Bytes.{ascii};
ghost use Rattle.pattern_syntax.specs.Reduced.{bytes_from};
ghost use Rattle.spelled_names.specs.Spelling.{Spelled};

// Bytes of names: at most as many as a text has.
pub const NAME_BYTES: usize = 16384;

fn copy_part(text: &[u8], from: usize, to: usize, names: &mut [u8], named: usize) -> usize
    requires { ((from ≤ to) × (to ≤ length text.now)) × (named + (to - from) ≤ length names.old) }
    ensures { Spelled names.old named (bytes_from text.now from to) result names.new }
{
    let end = named + (to - from);
    names[named..end].copy_from_slice(&text[from..to]);
    end
}

fn put_joint(names: &mut [u8], named: usize) -> usize
    requires { named + 2 ≤ length names.old }
    ensures { Spelled names.old named (ascii "::") result names.new }
{
    names[named] = b':';
    names[named + 1] = b':';
    named + 2
}

// The bytes of a text from one position to another, behind the first `named` bytes of names: how many are in use then.
pub fn copy_bytes(
    text: &[u8],
    from: usize,
    to: usize,
    names: &mut [u8; NAME_BYTES],
    named: usize,
) -> usize
    requires { ((from ≤ to) × (to ≤ length text.now)) × (named + (to - from) ≤ 16384) }
    ensures { Spelled names.old named (bytes_from text.now from to) result names.new }
{
    copy_part(text, from, to, names, named)
}

// The same, behind `::`.
pub fn copy_behind(
    text: &[u8],
    from: usize,
    to: usize,
    names: &mut [u8; NAME_BYTES],
    named: usize,
) -> usize
    requires { ((from ≤ to) × (to ≤ length text.now)) × (named + 2 + (to - from) ≤ 16384) }
    ensures { Spelled names.old named (ascii "::" ++ bytes_from text.now from to) result names.new }
{
    let start = put_joint(names, named);
    copy_part(text, from, to, names, start)
}
