// The image: where its tables stand in the lent bytes, and what their rows hold.
#![tactic(auto)]

pub mod kinds; // kinds.rt: the numbers of kinds, by name
pub mod rows; // rows.rt: the rows of the tables, and an operand's bytes

ghost use Rattle.std.specs.Prelude.{◌≡◌, ◌+◌, ◌<◌, ◌≤◌, length};
ghost use Rattle.image.specs.Bytes.{word_at};
ghost use Rattle.image.specs.Tables.{tables_by, tables_of};

// A pattern's number.
#[derive(Clone, Copy)]
pub struct PatId(pub u16);

// A binding's number.
#[derive(Clone, Copy)]
pub struct BindingId(pub u16);

// A table's place: the byte at which it begins, and its count of rows.
#[derive(Clone, Copy)]
pub struct Table {
    pub at: u32,
    pub count: u16,
}

// The places of the six tables.
#[derive(Clone, Copy)]
pub struct Tables {
    pub types: Table,
    pub variants: Table,
    pub patterns: Table,
    pub bindings: Table,
    pub list: Table,
    pub bytes: Table,
}

// The big-endian word that begins at a byte.
pub fn word_at(image: &[u8], at: usize) -> u16
    requires { at + 1 < length image.now }
    ensures { result ≡ word_at image.now at }
{
    (image[at] as u16) * 256 + (image[at + 1] as u16)
}

// Where the tables stand, by the six counts that follow the version.
pub fn tables_of(image: &[u8]) -> Tables
    requires { 17 ≤ length image.now }
    ensures { result ≡ tables_of image.now }
{
    let types = word_at(image, 5);
    let variants = word_at(image, 7);
    let patterns = word_at(image, 9);
    let bindings = word_at(image, 11);
    let list = word_at(image, 13);
    let bytes = word_at(image, 15);
    placed(types, variants, patterns, bindings, list, bytes)
}

// The tables one behind the other, from byte 17 on.
fn placed(types: u16, variants: u16, patterns: u16, bindings: u16, list: u16, bytes: u16) -> Tables
    ensures { result ≡ tables_by types variants patterns bindings list bytes }
{
    let variants_at = 17 + 10 * (types as u32);
    let patterns_at = variants_at + 6 * (variants as u32);
    let bindings_at = patterns_at + 14 * (patterns as u32);
    let list_at = bindings_at + 4 * (bindings as u32);
    let bytes_at = list_at + 2 * (list as u32);
    Tables {
        types: Table {
            at: 17,
            count: types,
        },
        variants: Table {
            at: variants_at,
            count: variants,
        },
        patterns: Table {
            at: patterns_at,
            count: patterns,
        },
        bindings: Table {
            at: bindings_at,
            count: bindings,
        },
        list: Table {
            at: list_at,
            count: list,
        },
        bytes: Table {
            at: bytes_at,
            count: bytes,
        },
    }
}
