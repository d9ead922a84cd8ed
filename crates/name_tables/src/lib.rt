// The name table that a pattern's text is read with: which names are variants, fields and constants.
#![tactic(auto)]

ghost use Rattle.std.specs.Prelude.{◌≡◌, ◌+◌, ◌*◌, ◌≤◌, length};
ghost use Rattle.name_tables.specs.Names.{name_row_at};

use image::word_at;

// A row: its kind, the number of a variant, a field or a constant's operand, the variant that has the field, and where the name's bytes
// begin and how many they are.
#[derive(Clone, Copy)]
pub struct NameRow {
    pub kind: u16,
    pub number: u16,
    pub owner: u16,
    pub start: u16,
    pub count: u16,
}

// What rows a name is looked for in: variants, constants, both, or the fields of a variant.
#[derive(Clone, Copy)]
pub enum NameUse {
    Variant,
    Constant,
    Value,
    FieldOf(u16),
}

// The five words of the row i.
pub fn name_row_at(names: &[u8], i: u16) -> NameRow
    requires { 19 + 10 * i ≤ length names.now }
    ensures { result ≡ name_row_at names.now i }
{
    let at = 10 * (i as usize);
    NameRow {
        kind: word_at(names, 9 + at),
        number: word_at(names, 11 + at),
        owner: word_at(names, 13 + at),
        start: word_at(names, 15 + at),
        count: word_at(names, 17 + at),
    }
}
