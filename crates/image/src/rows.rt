// The rows of an image's tables, and the bytes of an operand as the part of the lent image that holds them.
ghost use Rattle.std.specs.Prelude.{◌≡◌, ◌+◌, ◌<◌, ◌≤◌, length};
ghost use Rattle.image.specs.Tables.{Whole, list_count, data_count};
ghost use Rattle.image.specs.Rows.{type_row, type_at, variant_row, variant_at, pat_row, pat_at, binding_row, binding_at, list_at, operand_row, operand_at, operand_bytes};

use super::{BindingId, PatId, Tables, word_at};

#[derive(Clone, Copy)]
pub struct TypeRow {
    pub kind: u16,
    pub a: u16,
    pub b: u16,
    pub c: u16,
    pub copy: u16,
}

// The first field's place in the list, the count of fields, and the discriminant's place in the data.
#[derive(Clone, Copy)]
pub struct VariantRow {
    pub fields: u16,
    pub count: u16,
    pub discriminant: u16,
}

#[derive(Clone, Copy)]
pub struct PatRow {
    pub kind: u16,
    pub ty: u16,
    pub derefs: u16,
    pub a: u16,
    pub b: u16,
    pub c: u16,
    pub d: u16,
}

#[derive(Clone, Copy)]
pub struct BindingRow {
    pub ty: u16,
    pub picked: u16,
}

// An operand: its kind, and where its bytes lie in the data.
#[derive(Clone, Copy)]
pub struct OperandRow {
    pub kind: u16,
    pub offset: u16,
    pub count: u16,
}

fn type_row(image: &[u8], at: usize) -> TypeRow
    requires { at + 10 ≤ length image.now }
    ensures { result ≡ type_row image.now at }
{
    TypeRow {
        kind: word_at(image, at),
        a: word_at(image, at + 2),
        b: word_at(image, at + 4),
        c: word_at(image, at + 6),
        copy: word_at(image, at + 8),
    }
}

// The type t.
pub fn type_at(image: &[u8], tables: Tables, t: u16) -> TypeRow
    requires { Whole image.now tables × (t < tables.types.count) }
    ensures { result ≡ type_at image.now t }
{
    type_row(image, (tables.types.at as usize) + 10 * (t as usize))
}

fn variant_row(image: &[u8], at: usize) -> VariantRow
    requires { at + 6 ≤ length image.now }
    ensures { result ≡ variant_row image.now at }
{
    VariantRow {
        fields: word_at(image, at),
        count: word_at(image, at + 2),
        discriminant: word_at(image, at + 4),
    }
}

// The variant v.
pub fn variant_at(image: &[u8], tables: Tables, v: u16) -> VariantRow
    requires { Whole image.now tables × (v < tables.variants.count) }
    ensures { result ≡ variant_at image.now v }
{
    variant_row(image, (tables.variants.at as usize) + 6 * (v as usize))
}

fn pat_row(image: &[u8], at: usize) -> PatRow
    requires { at + 14 ≤ length image.now }
    ensures { result ≡ pat_row image.now at }
{
    PatRow {
        kind: word_at(image, at),
        ty: word_at(image, at + 2),
        derefs: word_at(image, at + 4),
        a: word_at(image, at + 6),
        b: word_at(image, at + 8),
        c: word_at(image, at + 10),
        d: word_at(image, at + 12),
    }
}

// The pattern p.
pub fn pat_at(image: &[u8], tables: Tables, p: PatId) -> PatRow
    requires { Whole image.now tables × (p.0 < tables.patterns.count) }
    ensures { result ≡ pat_at image.now p.0 }
{
    pat_row(image, (tables.patterns.at as usize) + 14 * (p.0 as usize))
}

fn binding_row(image: &[u8], at: usize) -> BindingRow
    requires { at + 4 ≤ length image.now }
    ensures { result ≡ binding_row image.now at }
{
    BindingRow {
        ty: word_at(image, at),
        picked: word_at(image, at + 2),
    }
}

// The binding b.
pub fn binding_at(image: &[u8], tables: Tables, b: BindingId) -> BindingRow
    requires { Whole image.now tables × (b.0 < tables.bindings.count) }
    ensures { result ≡ binding_at image.now b.0 }
{
    binding_row(image, (tables.bindings.at as usize) + 4 * (b.0 as usize))
}

// The word i of the list.
pub fn list_at(image: &[u8], tables: Tables, i: u16) -> u16
    requires { Whole image.now tables × (i < tables.list.count) }
    ensures { result ≡ list_at image.now i }
{
    word_at(image, (tables.list.at as usize) + 2 * (i as usize))
}

fn operand_row(image: &[u8], at: usize) -> OperandRow
    requires { at + 6 ≤ length image.now }
    ensures { result ≡ operand_row image.now at }
{
    OperandRow {
        kind: word_at(image, at),
        offset: word_at(image, at + 2),
        count: word_at(image, at + 4),
    }
}

// The operand whose three words begin at the word o of the list.
pub fn operand_at(image: &[u8], tables: Tables, o: u16) -> OperandRow
    requires { Whole image.now tables × (o + 3 ≤ tables.list.count) }
    ensures { result ≡ operand_at image.now o }
{
    operand_row(image, (tables.list.at as usize) + 2 * (o as usize))
}

// The literal leaf: an operand's bytes, as the part of the lent image that holds them.
pub fn operand_bytes(image: &[u8], tables: Tables, operand: OperandRow) -> &[u8]
    requires { Whole image.now tables × (operand.offset + operand.count ≤ tables.bytes.count) }
    ensures { result.now ≡ operand_bytes image.now operand }
{
    let from = (tables.bytes.at as usize) + (operand.offset as usize);
    let to = from + (operand.count as usize);
    &image[from..to]
}
