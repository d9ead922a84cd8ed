// The items of a slice pattern are as many as its type has, and its rest is one.
ghost use Rattle.std.specs.Prelude.{◌≡◌, true, ◌<◌};
ghost use Rattle.image.specs.Tables.{Whole, type_count};
ghost use Rattle.image.specs.Types.{ty_of};
ghost use Rattle.image.specs.Tree.{tree, tree?};
ghost use Rattle.image.specs.Valid.{valid};
ghost use Rattle.meaning.specs.Fit.{items_fit, is_rest?, rest_fits};
ghost use Rattle.fit_shapes.specs.Slices.{rest_kind, pattern_or_absent};

use image::kinds::PatKind;
use image::rows::{pat_at, type_at};
use image::{PatId, Tables};

// The items of a slice pattern of the type t: as many as an array has, or no more where there is a rest. Where there is none the word `rest` is 65535.
#[inline(never)] // its frame would stand in every turn of the fit
pub fn items_fit(image: &[u8], tables: Tables, t: u16, rest: u16, count: u16) -> bool
    requires { (valid image.now ≡ true) × Whole image.now tables × (t < type_count image.now) }
    ensures { result ≡ items_fit (ty_of image.now t).shape (tree? (tree image.now) rest) count }
{
    let row = type_at(image, tables, t);
    if row.kind != 8 {
        return true;
    }
    if rest == 65535 {
        return count == row.b;
    }
    count <= row.b
}

// The kind of a Rest.
fn is_rest_kind(kind: PatKind) -> bool
    ensures { result ≡ rest_kind kind }
{
    match kind {
        PatKind::Rest => true,
        _ => false,
    }
}

// The pattern q, which may be absent, is a Rest. Where it is absent the word q is 65535.
fn is_rest(image: &[u8], tables: Tables, q: u16) -> bool
    requires { (valid image.now ≡ true) × Whole image.now tables × (pattern_or_absent image.now q ≡ true) }
    ensures { result ≡ is_rest? (tree? (tree image.now) q) }
{
    if q == 65535 {
        return false;
    }
    is_rest_kind(PatKind::from(pat_at(image, tables, PatId(q)).kind))
}

// The rest of a slice pattern, which may be absent: Rest, Wild, or Bind over Rest. Where it is absent the word `rest` is 65535.
pub fn rest_fits(image: &[u8], tables: Tables, rest: u16) -> bool
    requires { (valid image.now ≡ true) × Whole image.now tables × (pattern_or_absent image.now rest ≡ true) }
    ensures { result ≡ rest_fits (tree? (tree image.now) rest) }
{
    if rest == 65535 {
        return true;
    }
    let row = pat_at(image, tables, PatId(rest));
    match PatKind::from(row.kind) {
        PatKind::Rest => true,
        PatKind::Wild => true,
        PatKind::Bind => is_rest(image, tables, row.b),
        _ => false,
    }
}
