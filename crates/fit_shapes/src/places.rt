// A pattern's type is its place's, behind as many references as the pattern crosses.
ghost use Rattle.std.specs.Prelude.{◌≡◌, true, ◌<◌};
ghost use Rattle.image.specs.Tables.{Whole, type_count};
ghost use Rattle.image.specs.Types.{ty_of};
ghost use Rattle.image.specs.Valid.{valid};
ghost use Rattle.cases_spec.specs.Cases.{referent};
ghost use Rattle.meaning.specs.Typing.{element_type};
ghost use Rattle.meaning.specs.Fit.{behind, is_type};
ghost use Rattle.fit_shapes.specs.Numbers.{type_number, names_type?, Numbers};

use image::Tables;
use image::rows::{PatRow, type_at};

// What a reference refers to; none where the type is no reference.
pub fn referent_of(image: &[u8], tables: Tables, t: u16) -> Option<u16>
    requires { (valid image.now ≡ true) × Whole image.now tables × (t < type_count image.now) }
    ensures { Numbers image.now result (referent (ty_of image.now t).shape) }
{
    let row = type_at(image, tables, t);
    if row.kind != 7 {
        return None;
    }
    Some(row.a)
}

// The type behind so many references, if there are as many.
fn type_behind(image: &[u8], tables: Tables, derefs: u16, place: Option<u16>) -> Option<u16>
    requires { (valid image.now ≡ true) × Whole image.now tables × (names_type? image.now (type_number place) ≡ true) }
    ensures { type_number result ≡ behind image.now derefs (type_number place) }
{
    if derefs == 0 {
        return place;
    }
    let t = place?;
    type_behind(image, tables, derefs - 1, referent_of(image, tables, t))
}

// A row's type is the place's after its derefs.
pub fn type_is_the_places(image: &[u8], tables: Tables, row: PatRow, place: Option<u16>) -> bool
    requires { (valid image.now ≡ true) × Whole image.now tables × (names_type? image.now (type_number place) ≡ true) }
    ensures { result ≡ is_type (behind image.now row.derefs (type_number place)) row.ty }
{
    match type_behind(image, tables, row.derefs, place) {
        None => false,
        Some(t) => t == row.ty,
    }
}

// The type of the elements of an array or a slice; none where the type is neither.
pub fn element_type(image: &[u8], tables: Tables, t: u16) -> Option<u16>
    requires { (valid image.now ≡ true) × Whole image.now tables × (t < type_count image.now) }
    ensures { Numbers image.now result (element_type (ty_of image.now t).shape) }
{
    let row = type_at(image, tables, t);
    if row.kind == 8 {
        return Some(row.a);
    }
    if row.kind == 9 {
        return Some(row.a);
    }
    None
}
