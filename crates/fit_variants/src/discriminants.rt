// The discriminants of an enum's variants, 16 bytes each, differ.
ghost use Rattle.std.specs.Prelude.{◌≡◌, true, ◌+◌, ◌<◌, ◌≤◌, eqb};
ghost use Rattle.image.specs.Tables.{Whole, type_count, variant_count};
ghost use Rattle.image.specs.Lists.{member, distinct};
ghost use Rattle.image.specs.Types.{ty_of, variant_of};
ghost use Rattle.image.specs.Valid.{valid};
ghost use Rattle.meaning.specs.Fit.{discriminants_differ};
ghost use Rattle.fit_variants.specs.Discriminants.{discriminant_number, discriminants};

use image::Tables;
use image::kinds::AdtKind;
use image::rows::{type_at, variant_at};
use literals::half;

// A discriminant, as two halves.
#[derive(Clone, Copy)]
struct Discriminant {
    low: u64,
    high: u64,
}

// The discriminant of the variant v.
fn discriminant_of(image: &[u8], tables: Tables, v: u16) -> Discriminant
    requires { (valid image.now ≡ true) × Whole image.now tables × (v < variant_count image.now) }
    ensures { discriminant_number result ≡ (variant_of image.now v).discriminant }
{
    let row = variant_at(image, tables, v);
    let at = (tables.bytes.at as usize) + (row.discriminant as usize);
    Discriminant {
        low: half(image, at, 8),
        high: half(image, at + 8, 8),
    }
}

// Two discriminants are one number.
fn same_discriminant(a: Discriminant, b: Discriminant) -> bool
    ensures { result ≡ eqb (discriminant_number a) (discriminant_number b) }
{
    a.low == b.low && a.high == b.high
}

// The discriminant d is that of one of the `count` variants from `from` on.
fn discriminant_stands(image: &[u8], tables: Tables, d: Discriminant, from: u16, count: u16) -> bool
    requires { (valid image.now ≡ true) × Whole image.now tables × (from + count ≤ variant_count image.now) }
    ensures { result ≡ member (discriminant_number d) (discriminants image.now from count) }
{
    for v in from..from + count {
        let other = discriminant_of(image, tables, v);
        if same_discriminant(d, other) {
            return true;
        }
    }
    false
}

// Those of the `count` variants from `from` on differ.
fn discriminants_apart(image: &[u8], tables: Tables, from: u16, count: u16) -> bool
    requires { (valid image.now ≡ true) × Whole image.now tables × (from + count ≤ variant_count image.now) }
    ensures { result ≡ distinct (discriminants image.now from count) }
{
    for k in 0..count {
        let v = from + k;
        let d = discriminant_of(image, tables, v);
        if discriminant_stands(image, tables, d, v + 1, count - k - 1) {
            return false;
        }
    }
    true
}

// Those of the type t, where it is an enum.
pub fn discriminants_differ(image: &[u8], tables: Tables, t: u16) -> bool
    requires { (valid image.now ≡ true) × Whole image.now tables × (t < type_count image.now) }
    ensures { result ≡ discriminants_differ image.now (ty_of image.now t).shape }
{
    let row = type_at(image, tables, t);
    if row.kind != 6 {
        return true;
    }
    match AdtKind::from(row.c) {
        AdtKind::Enum => discriminants_apart(image, tables, row.a, row.b),
        _ => true,
    }
}
