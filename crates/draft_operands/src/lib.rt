// A literal as an operand of the draft: its kind, and its bytes, the lowest first.
#![tactic(auto)]

ghost use Rattle.std.specs.Prelude.{◌≡◌, true, ◌++◌, ◌+◌, ◌*◌, ◌-◌, ◌^◌, ◌≤◌, length};
ghost use Rattle.node_rows.specs.Nodes.{literal_in};
ghost use Rattle.pattern_images.specs.Drafts.{little_endian_bytes};
ghost use Rattle.draft_tables.specs.Room.{DraftRoom};
ghost use Rattle.draft_operands.specs.Literals.{literal_fits, operand_with, IsOperandOf, RoomBehind, OperandStepped};

use decimal_values::integer_value;
use draft_tables::{DraftCounts, push_bytes, push_words};
use image::Tables;

// The kind of a literal's operand, sixteen bytes, and how many of them the literal has.
#[derive(Clone, Copy)]
pub struct LiteralBytes {
    pub kind: u16,
    pub bytes: [u16; 16],
    pub count: u16,
}

// Two halves of eight bytes.
#[derive(Clone, Copy)]
struct Halves {
    low: u64,
    high: u64,
}

// The bytes of two halves.
fn halves_bytes(low: u64, high: u64) -> [u16; 16]
    ensures { result ≡ little_endian_bytes 8 low ++ little_endian_bytes 8 high }
{
    let l1 = low / 256;
    let l2 = l1 / 256;
    let l3 = l2 / 256;
    let l4 = l3 / 256;
    let l5 = l4 / 256;
    let l6 = l5 / 256;
    let l7 = l6 / 256;
    let h1 = high / 256;
    let h2 = h1 / 256;
    let h3 = h2 / 256;
    let h4 = h3 / 256;
    let h5 = h4 / 256;
    let h6 = h5 / 256;
    let h7 = h6 / 256;
    [
        (low % 256) as u16,
        (l1 % 256) as u16,
        (l2 % 256) as u16,
        (l3 % 256) as u16,
        (l4 % 256) as u16,
        (l5 % 256) as u16,
        (l6 % 256) as u16,
        (l7 % 256) as u16,
        (high % 256) as u16,
        (h1 % 256) as u16,
        (h2 % 256) as u16,
        (h3 % 256) as u16,
        (h4 % 256) as u16,
        (h5 % 256) as u16,
        (h6 % 256) as u16,
        (h7 % 256) as u16,
    ]
}

// What is to be added to two halves for 0, without the carry: two's complement.
fn minus_halves(low: u64, high: u64) -> Halves
    ensures { little_endian_bytes 8 result.low ++ little_endian_bytes 8 result.high ≡ little_endian_bytes 16 (2 ^ 128 - (high * 2 ^ 64 + low)) }
{
    if low != 0 {
        return Halves {
            low: 0xFFFF_FFFF_FFFF_FFFF - low + 1,
            high: 0xFFFF_FFFF_FFFF_FFFF - high,
        };
    }
    if high != 0 {
        return Halves {
            low: 0,
            high: 0xFFFF_FFFF_FFFF_FFFF - high + 1,
        };
    }
    Halves { low: 0, high: 0 }
}

fn operand_of(kind: u16, low: u64, high: u64, count: u16) -> LiteralBytes
    ensures { result ≡ operand_with kind low high count }
{
    let bytes = halves_bytes(low, high);
    LiteralBytes {
        kind: kind,
        bytes: bytes,
        count: count,
    }
}

// The operand of a literal, by its sort: 0 false, 1 true, 2 a char, 3 an integer, 4 one behind a minus.
pub fn literal_bytes(text: &[u8], sort: u16, from: u16, to: u16) -> LiteralBytes
    requires { literal_fits (literal_in text.now sort from to) ≡ true }
    ensures { IsOperandOf (literal_in text.now sort from to) result }
{
    if sort < 2 {
        return operand_of(4, sort as u64, 0, 1);
    }
    if sort == 2 {
        return operand_of(3, (to as u64) * 65536 + (from as u64), 0, 4);
    }
    let Some((low, high)) = integer_value(text, from as usize, to as usize) else {
        return operand_of(0, 0, 0, 0);
    };
    if sort == 3 {
        return operand_of(2, low, high, 16);
    }
    let minus = minus_halves(low, high);
    operand_of(1, minus.low, minus.high, 16)
}

// A literal's operand behind the list words and the data that are there: its kind, where its bytes begin and how many they are. None where a limit is passed.
pub fn add_operand(
    tables: Tables,
    draft: &mut [u16],
    c: DraftCounts,
    operand: LiteralBytes,
) -> Option<DraftCounts>
    requires { (length draft.old ≡ 40704) × (DraftRoom tables c × ((operand.count ≤ 16) × (length operand.bytes ≡ 16))) }
    ensures { RoomBehind tables c result × OperandStepped tables draft.old c operand result draft.new }
{
    let from = tables.bytes.count + c.bytes;
    if 2048 < tables.list.count + c.words + 3 {
        return None;
    }
    if 16384 < from + operand.count {
        return None;
    }
    let words = [operand.kind, from, operand.count];
    let listed = push_words(draft, c, &words, 3);
    let bytes = operand.bytes;
    Some(push_bytes(draft, listed, &bytes, operand.count))
}
