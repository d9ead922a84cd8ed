// Arguments in a row, and the shapes of patterns with subpatterns, by the rows of the image; what a Slice pattern's type can be.
#![tactic(auto)]

ghost use Rattle.std.specs.Prelude.{◌≡◌, true};
ghost use Rattle.image.specs.Tables.{Whole};
ghost use Rattle.image.specs.Valid.{valid};
ghost use Rattle.pattern_rows.specs.Rows.{compound_kind, argument_pat, ArgumentLies, variant_word, variant_shape, before_ellipsis, smaller};

use image::kinds::PatKind;
use image::rows::{PatRow, list_at};
use image::{PatId, Tables};

// The kinds of patterns that have subpatterns or name a variant.
#[derive(Clone, Copy)]
pub enum CompoundKind {
    Tuple,
    Or,
    Slice,
    Bind,
    Ref,
    // A Record, a TupleStruct, or a path that names a variant.
    Variant,
}

// The arguments of a pattern that names a variant: in a row, with where they begin in the list, their count and the ellipsis; by fields, with where they begin and
// their count; or none.
#[derive(Clone, Copy)]
pub enum AdtPatternShape {
    Tuple(u16, u16, u16),
    Record(u16, u16),
    Unit,
}

// What arguments in a row stand for, and how they lie in the list.
#[derive(Clone, Copy)]
pub enum ArgumentRow {
    // The first fields, from the word `from` on.
    Fields,
    // The last fields, from the last on: the words before `from`, from the last on.
    LastFields,
    // Fields by their numbers: two words each, the field and the pattern.
    RecordFields,
    // The first items of an array or a slice.
    Items,
    // The last items, counted from the end.
    LastItems,
}

// What a Slice pattern's type is.
#[derive(Clone, Copy)]
pub enum Sequence {
    Array,
    Slice,
    Other,
}

// The kind of a pattern that has subpatterns or names a variant; of another it is not asked.
pub fn compound_kind(kind: PatKind) -> CompoundKind
    ensures { result ≡ compound_kind kind }
{
    match kind {
        PatKind::Tuple => CompoundKind::Tuple,
        PatKind::Or => CompoundKind::Or,
        PatKind::Slice => CompoundKind::Slice,
        PatKind::Bind => CompoundKind::Bind,
        PatKind::Ref => CompoundKind::Ref,
        _ => CompoundKind::Variant,
    }
}

// The pattern that the argument i is.
pub fn argument_pat(image: &[u8], tables: Tables, row: ArgumentRow, from: u16, i: u16) -> PatId
    requires { (valid image.now ≡ true) × Whole image.now tables × ArgumentLies row image.now from i }
    ensures { result.0 ≡ argument_pat row image.now from i }
{
    match row {
        ArgumentRow::Fields => PatId(list_at(image, tables, from + i)),
        ArgumentRow::LastFields => PatId(list_at(image, tables, from - 1 - i)),
        ArgumentRow::RecordFields => PatId(list_at(image, tables, from + 2 * i + 1)),
        ArgumentRow::Items => PatId(list_at(image, tables, from + i)),
        ArgumentRow::LastItems => PatId(list_at(image, tables, from + i)),
    }
}

// The variant's word in the row of a pattern that names one.
pub fn variant_word(row: PatRow) -> u16
    ensures { result ≡ variant_word row }
{
    if row.kind == 6 {
        return row.c;
    }
    if row.kind == 12 {
        return row.d;
    }
    row.b
}

// The arguments of a pattern that names a variant.
pub fn variant_shape(row: PatRow) -> AdtPatternShape
    ensures { result ≡ variant_shape row }
{
    if row.kind == 6 {
        return AdtPatternShape::Record(row.a, row.b);
    }
    if row.kind == 12 {
        return AdtPatternShape::Tuple(row.a, row.b, row.c);
    }
    AdtPatternShape::Unit
}

// How many arguments stand before the ellipsis: all, where it is absent.
pub fn ellipsis_at(ellipsis: u16, count: u16) -> u16
    ensures { result ≡ before_ellipsis ellipsis count }
{
    if ellipsis == 65535 {
        return count;
    }
    ellipsis
}

// The smaller of two numbers.
pub fn least(m: u16, n: u16) -> u16
    ensures { result ≡ smaller m n }
{
    if m < n {
        return m;
    }
    n
}
