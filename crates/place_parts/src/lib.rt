// The type one element on from a type of the table, for each sort of element.
#![tactic(auto)]

ghost use Rattle.std.specs.Prelude.{◌≡◌, true, List, ℕ, ◌+◌, ◌<◌, ◌≤◌};
ghost use Rattle.image.specs.Tables.{Whole, variant_count, list_count};
ghost use Rattle.image.specs.Lists.{up_from};
ghost use Rattle.image.specs.Rules.{listed, type_shape_holds};
ghost use Rattle.image.specs.Types.{shape_by, variant_of};
ghost use Rattle.image.specs.Valid.{valid};
ghost use Rattle.place.specs.PlaceTypes.{field_of, deref_ty, adt_field_ty, field_ty, element_ty, subslice_ty, adt_downcast_ty, downcast_ty};

use image::Tables;
use image::kinds::{AdtKind, TypeKind};
use image::rows::{TypeRow, list_at, variant_at};
use place::place_ty::PlaceTy;

// The field i of the `count` fields whose types stand in the list from `from` on.
fn field_of(image: &[u8], tables: Tables, from: u16, count: u16, i: u16) -> PlaceTy
    requires { Whole image.now tables × (from + count ≤ list_count image.now) }
    ensures { result ≡ field_of (listed image.now 1 from count) i }
{
    if count <= i {
        return PlaceTy::Inapplicable;
    }
    PlaceTy::Ty(list_at(image, tables, from + i))
}

// The field i of the variant v.
pub fn variant_field(image: &[u8], tables: Tables, v: u16, i: u16) -> PlaceTy
    requires { Whole image.now tables × (valid image.now ≡ true) × (v < variant_count image.now) }
    ensures { result ≡ field_of (variant_of image.now v).fields i }
{
    let row = variant_at(image, tables, v);
    field_of(image, tables, row.fields, row.count, i)
}

// What a reference refers to.
pub fn deref_ty(row: TypeRow, kind: TypeKind) -> PlaceTy
    ensures { (image : List ℕ) → result ≡ deref_ty (shape_by kind image row) }
{
    match kind {
        TypeKind::Reference => PlaceTy::Ty(row.a),
        _ => PlaceTy::Inapplicable,
    }
}

// A field of a struct or a union, whose one variant is v.
fn adt_field_ty(image: &[u8], tables: Tables, kind: AdtKind, v: u16, i: u16) -> PlaceTy
    requires { Whole image.now tables × (valid image.now ≡ true) × (v < variant_count image.now) }
    ensures { (count : ℕ) → 0 < count → result ≡ adt_field_ty kind image.now (up_from v count) i }
{
    match kind {
        AdtKind::Struct => variant_field(image, tables, v, i),
        AdtKind::Union => variant_field(image, tables, v, i),
        _ => PlaceTy::Inapplicable,
    }
}

// A field of a tuple, a struct or a union.
pub fn field_ty(image: &[u8], tables: Tables, row: TypeRow, kind: TypeKind, i: u16) -> PlaceTy
    requires { Whole image.now tables × (valid image.now ≡ true) × (type_shape_holds kind image.now row ≡ true) }
    ensures { result ≡ field_ty (shape_by kind image.now row) image.now i }
{
    match kind {
        TypeKind::Tuple => field_of(image, tables, row.a, row.b, i),
        TypeKind::Adt => adt_field_ty(image, tables, AdtKind::from(row.c), row.a, i),
        _ => PlaceTy::Inapplicable,
    }
}

// An element of an array or a slice.
pub fn element_ty(row: TypeRow, kind: TypeKind) -> PlaceTy
    ensures { (image : List ℕ) → result ≡ element_ty (shape_by kind image row) }
{
    match kind {
        TypeKind::Array => PlaceTy::Ty(row.a),
        TypeKind::Slice => PlaceTy::Ty(row.a),
        _ => PlaceTy::Inapplicable,
    }
}

// A part of the slice type s, or of an array.
pub fn subslice_ty(s: u16, row: TypeRow, kind: TypeKind) -> PlaceTy
    ensures { (image : List ℕ) → result ≡ subslice_ty s (shape_by kind image row) }
{
    match kind {
        TypeKind::Array => PlaceTy::Part(row.a),
        TypeKind::Slice => PlaceTy::Ty(s),
        _ => PlaceTy::Inapplicable,
    }
}

// The variant v of the enum e, whose variants are the `count` from `from` on.
fn enum_downcast_ty(e: u16, v: u16, from: u16, count: u16) -> PlaceTy
    ensures { result ≡ adt_downcast_ty AdtKind.Enum e v (up_from from count) }
{
    if v < from {
        return PlaceTy::Inapplicable;
    }
    if count <= v - from {
        return PlaceTy::Inapplicable;
    }
    PlaceTy::Variant(e, v)
}

fn adt_downcast_ty(kind: AdtKind, e: u16, v: u16, from: u16, count: u16) -> PlaceTy
    ensures { result ≡ adt_downcast_ty kind e v (up_from from count) }
{
    match kind {
        AdtKind::Enum => enum_downcast_ty(e, v, from, count),
        _ => PlaceTy::Inapplicable,
    }
}

// The variant v of the type e.
pub fn downcast_ty(e: u16, v: u16, row: TypeRow, kind: TypeKind) -> PlaceTy
    ensures { (image : List ℕ) → result ≡ downcast_ty e v (shape_by kind image row) }
{
    match kind {
        TypeKind::Adt => adt_downcast_ty(AdtKind::from(row.c), e, v, row.a, row.b),
        _ => PlaceTy::Inapplicable,
    }
}
