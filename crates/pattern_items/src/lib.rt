// The element of a place that an argument in a row stands for, a field or an item of an array or a slice; whether a type is an array or a slice.
#![tactic(auto)]

ghost use Rattle.std.specs.Prelude.{◌≡◌, true};
ghost use Rattle.image.specs.Tables.{Whole};
ghost use Rattle.image.specs.Valid.{valid};
ghost use Rattle.pattern_rows.specs.Rows.{argument_elem, ArgumentAt, sequence_by};

use image::Tables;
use image::kinds::TypeKind;
use image::rows::list_at;
use pattern_rows::{ArgumentRow, Sequence};
use place::elems::ProjectionElem;

// The element that the argument i stands for, where there are so many fields, or so many last items.
pub fn argument_elem(
    image: &[u8],
    tables: Tables,
    row: ArgumentRow,
    from: u16,
    fields: u16,
    i: u16,
) -> ProjectionElem
    requires { (valid image.now ≡ true) × Whole image.now tables × ArgumentAt row image.now from fields i }
    ensures { result ≡ argument_elem row image.now from fields i }
{
    match row {
        ArgumentRow::Fields => ProjectionElem::Field(i),
        ArgumentRow::LastFields => ProjectionElem::Field(fields - 1 - i),
        ArgumentRow::RecordFields => ProjectionElem::Field(list_at(image, tables, from + 2 * i)),
        ArgumentRow::Items => ProjectionElem::Index(i),
        ArgumentRow::LastItems => ProjectionElem::IndexFromEnd(fields - 1 - i),
    }
}

// What a type is to a Slice pattern.
pub fn sequence_of(kind: TypeKind) -> Sequence
    ensures { result ≡ sequence_by kind }
{
    match kind {
        TypeKind::Array => Sequence::Array,
        TypeKind::Slice => Sequence::Slice,
        _ => Sequence::Other,
    }
}
