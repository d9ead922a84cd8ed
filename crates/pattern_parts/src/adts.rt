// The type at a place, as tuples, references and variants need it.
ghost use Rattle.std.specs.Prelude.{◌≡◌, true, ◌+◌, ◌*◌, ◌<◌, ◌≤◌, get_or};
ghost use Rattle.image.specs.Tables.{Whole, list_count};
ghost use Rattle.image.specs.Lists.{up_from};
ghost use Rattle.image.specs.Valid.{valid};
ghost use Rattle.place.specs.Places.{projection_of};
ghost use Rattle.place.specs.PlaceTypes.{multi_projection_ty, Named};
ghost use Rattle.mir.specs.Locals.{local_ty};
ghost use Rattle.body_tables.specs.Layout.{body_of};
ghost use Rattle.pattern_matching.specs.Variants.{shape_of};
ghost use Rattle.pattern_parts.specs.Parts.{needed_ty, tuple_at, tuple_result, reference_at, reference_result, adt_has, adt_at, adt_result, fields_there};

use body_tables::BODY_WORDS;
use body_tables::locals::local_word;
use image::Tables;
use image::kinds::{AdtKind, TypeKind};
use image::rows::{list_at, type_at};
use mir::locals::word_ty;
use place::Place;
use place::place_ty::PlaceTy;
use place_types::multi_projection_ty;
use refusals::MirLowerError;

// Of which sort an ADT that has a variant is.
#[derive(Clone, Copy)]
pub enum VariantOf {
    Struct,
    Enum,
}

// The type at the end of a place.
pub fn place_ty(image: &[u8], tables: Tables, body: &[u16; BODY_WORDS], place: Place) -> PlaceTy
    requires image_value { (valid image.now ≡ true) × Whole image.now tables × (place.local.0 < 512) × (place.len ≤ 16) }
    requires named { Named image.now (local_ty (get_or (body_of body.now).locals place.local.0 0)) }
    ensures { (result ≡ multi_projection_ty image.now (local_ty (get_or (body_of body.now).locals place.local.0 0)) (projection_of place)) × Named image.now result }
{
    multi_projection_ty(image, tables, word_ty(local_word(body, place.local)), place)
}

// The type of the table at a place, or none that a pattern could need; or a projection does not apply.
fn needed_ty(ty: PlaceTy) -> Result<Option<u16>, MirLowerError>
    ensures { result ≡ needed_ty ty }
{
    match ty {
        PlaceTy::Ty(t) => Ok(Some(t)),
        PlaceTy::Variant(e, _) => Ok(Some(e)),
        PlaceTy::Inapplicable => Err(MirLowerError::PlaceType),
        _ => Ok(None),
    }
}

// A tuple is needed: how many fields it has.
pub fn tuple_at(image: &[u8], tables: Tables, ty: PlaceTy) -> Result<u16, MirLowerError>
    requires { (valid image.now ≡ true) × Whole image.now tables × Named image.now ty }
    ensures { tuple_result result ≡ tuple_at (shape_of image.now ty) }
{
    let t = needed_ty(ty)?.ok_or(MirLowerError::TypeError(1))?;
    let row = type_at(image, tables, t);
    match TypeKind::from(row.kind) {
        TypeKind::Tuple => Ok(row.b),
        _ => Err(MirLowerError::TypeError(1)),
    }
}

// A reference is needed.
pub fn reference_at(image: &[u8], tables: Tables, ty: PlaceTy) -> Result<(), MirLowerError>
    requires { (valid image.now ≡ true) × Whole image.now tables × Named image.now ty }
    ensures { reference_result result ≡ reference_at (shape_of image.now ty) }
{
    let t = needed_ty(ty)?.ok_or(MirLowerError::TypeError(3))?;
    match TypeKind::from(type_at(image, tables, t).kind) {
        TypeKind::Reference => Ok(()),
        _ => Err(MirLowerError::TypeError(3)),
    }
}

// An ADT with the `count` variants from `from` on has the variant v.
fn variant_of(kind: AdtKind, from: u16, count: u16, v: u16) -> Result<VariantOf, MirLowerError>
    ensures { adt_result result ≡ adt_has kind (up_from from count) v }
{
    if v < from {
        return Err(MirLowerError::TypeError(5));
    }
    if count <= v - from {
        return Err(MirLowerError::TypeError(5));
    }
    match kind {
        AdtKind::Struct => Ok(VariantOf::Struct),
        AdtKind::Enum => Ok(VariantOf::Enum),
        _ => Err(MirLowerError::TypeError(6)),
    }
}

// A struct or an enum that has the variant v is needed.
pub fn adt_at(image: &[u8], tables: Tables, ty: PlaceTy, v: u16) -> Result<VariantOf, MirLowerError>
    requires { (valid image.now ≡ true) × Whole image.now tables × Named image.now ty }
    ensures { adt_result result ≡ adt_at (shape_of image.now ty) v }
{
    let t = needed_ty(ty)?.ok_or(MirLowerError::TypeError(4))?;
    let row = type_at(image, tables, t);
    match TypeKind::from(row.kind) {
        TypeKind::Adt => variant_of(AdtKind::from(row.c), row.a, row.b, v),
        _ => Err(MirLowerError::TypeError(4)),
    }
}

// The fields of a Record, the first of each two of the 2 * count words from `from` on, are all below the count of fields.
pub fn fields_there(image: &[u8], tables: Tables, from: u16, count: u16, fields: u16) -> bool
    requires { (valid image.now ≡ true) × Whole image.now tables × (from + 2 * count ≤ list_count image.now) }
    ensures { result ≡ fields_there image.now from count fields }
{
    for i in 0..count {
        if fields <= list_at(image, tables, from + 2 * i) {
            return false;
        }
    }
    true
}
