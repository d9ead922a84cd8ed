// The type of a place, by the type table.
#![tactic(auto)]

ghost use Rattle.std.specs.Prelude.{◌≡◌, true, ◌<◌, ◌≤◌};
ghost use Rattle.image.specs.Tables.{Whole, type_count, variant_count};
ghost use Rattle.image.specs.Valid.{valid};
ghost use Rattle.place.specs.PlaceTypes.{ty_projection, variant_projection, part_projection, projection_ty, multi_projection_ty, Named};
ghost use Rattle.place.specs.Places.{projection_of};

use image::Tables;
use image::kinds::TypeKind;
use image::rows::type_at;
use place::Place;
use place::elems::{ProjectionElem, elem_of};
use place::place_ty::PlaceTy;
use place_parts::{deref_ty, downcast_ty, element_ty, field_ty, subslice_ty, variant_field};

// One element on from the type t.
fn ty_projection(image: &[u8], tables: Tables, t: u16, elem: ProjectionElem) -> PlaceTy
    requires { Whole image.now tables × (valid image.now ≡ true) × (t < type_count image.now) }
    ensures { result ≡ ty_projection elem image.now t }
{
    let row = type_at(image, tables, t);
    let kind = TypeKind::from(row.kind);
    match elem {
        ProjectionElem::Deref => deref_ty(row, kind),
        ProjectionElem::Field(i) => field_ty(image, tables, row, kind, i),
        ProjectionElem::Index(_) => element_ty(row, kind),
        ProjectionElem::IndexFromEnd(_) => element_ty(row, kind),
        ProjectionElem::Subslice(_, _) => subslice_ty(t, row, kind),
        ProjectionElem::Downcast(v) => downcast_ty(t, v, row, kind),
        ProjectionElem::Unknown => PlaceTy::Inapplicable,
    }
}

// One element on from the variant v.
fn variant_projection(image: &[u8], tables: Tables, v: u16, elem: ProjectionElem) -> PlaceTy
    requires { Whole image.now tables × (valid image.now ≡ true) × (v < variant_count image.now) }
    ensures { result ≡ variant_projection elem image.now v }
{
    match elem {
        ProjectionElem::Field(i) => variant_field(image, tables, v, i),
        _ => PlaceTy::Inapplicable,
    }
}

// One element on from a part of an array of t.
fn part_projection(t: u16, elem: ProjectionElem) -> PlaceTy
    ensures { result ≡ part_projection elem t }
{
    match elem {
        ProjectionElem::Index(_) => PlaceTy::Ty(t),
        ProjectionElem::IndexFromEnd(_) => PlaceTy::Ty(t),
        ProjectionElem::Subslice(_, _) => PlaceTy::Part(t),
        _ => PlaceTy::Inapplicable,
    }
}

// The type one element on.
pub fn projection_ty(image: &[u8], tables: Tables, ty: PlaceTy, elem: ProjectionElem) -> PlaceTy
    requires { Whole image.now tables × (valid image.now ≡ true) × Named image.now ty }
    ensures { result ≡ projection_ty ty image.now elem }
{
    match ty {
        PlaceTy::Ty(t) => ty_projection(image, tables, t, elem),
        PlaceTy::Variant(_, v) => variant_projection(image, tables, v, elem),
        PlaceTy::Part(t) => part_projection(t, elem),
        _ => PlaceTy::Inapplicable,
    }
}

// The type at the end of a place whose local has the type ty.
pub fn multi_projection_ty(image: &[u8], tables: Tables, ty: PlaceTy, place: Place) -> PlaceTy
    requires { Whole image.now tables × (valid image.now ≡ true) × Named image.now ty × (place.len ≤ 16) }
    ensures { result ≡ multi_projection_ty image.now ty (projection_of place) }
{
    let mut here = ty;
    for elem in &place.elems[..place.len as usize] {
        here = projection_ty(image, tables, here, elem_of(*elem));
    }
    here
}
