// What a type's row and the words of a pattern's row say, without the patterns below.
ghost use Rattle.std.specs.Prelude.{◌≡◌, true, not, ◌||◌, map, ◌+◌, ◌*◌, ◌<◌, ◌≤◌, eqb, length};
ghost use Rattle.std.proofs.Math.Option.{some};
ghost use Rattle.image.specs.Tables.{Whole, type_count, binding_count, list_count};
ghost use Rattle.image.specs.Rules.{listed};
ghost use Rattle.image.specs.Types.{ty_of};
ghost use Rattle.image.specs.Tree.{tree, tree?, word?, target};
ghost use Rattle.image.specs.Valid.{valid};
ghost use Rattle.counting.specs.Reaching.{is_enum, is_enum_kind};
ghost use Rattle.cases_spec.specs.Cases.{kind_number};
ghost use Rattle.meaning.specs.Values.{has_values, has_variant};
ghost use Rattle.meaning.specs.Fit.{fields_there, ellipsis_within, has_local, path_taken, rest_taken?};
ghost use Rattle.fit_shapes.specs.Slices.{pattern_or_absent};
ghost use Rattle.fit_own.specs.Rows.{valued, path_kind_fails, rest_kind_taken, RestNamed};

use fit_shapes::fields::has_variant;
use image::kinds::{AdtKind, PatKind, PathKind};
use image::rows::{list_at, pat_at, type_at};
use image::{BindingId, PatId, Tables};

// The number of the kind of the type t.
pub fn kind_of(image: &[u8], tables: Tables, t: u16) -> u16
    requires { (valid image.now ≡ true) × Whole image.now tables × (t < type_count image.now) }
    ensures { result ≡ kind_number (ty_of image.now t).shape }
{
    type_at(image, tables, t).kind
}

fn is_enum_kind(kind: AdtKind) -> bool
    ensures { result ≡ is_enum_kind kind }
{
    match kind {
        AdtKind::Struct => false,
        AdtKind::Enum => true,
        AdtKind::Union => false,
        AdtKind::Unknown => false,
    }
}

// The type t is an enum.
pub fn is_enum(image: &[u8], tables: Tables, t: u16) -> bool
    requires { (valid image.now ≡ true) × Whole image.now tables × (t < type_count image.now) }
    ensures { result ≡ is_enum (some (ty_of image.now t).shape) }
{
    let row = type_at(image, tables, t);
    if row.kind != 6 {
        return false;
    }
    is_enum_kind(AdtKind::from(row.c))
}

fn kind_has_values(kind: AdtKind) -> bool
    ensures { result ≡ has_values kind }
{
    match kind {
        AdtKind::Struct => true,
        AdtKind::Enum => true,
        AdtKind::Union => false,
        AdtKind::Unknown => false,
    }
}

// The type t is a struct or an enum.
fn has_values(image: &[u8], tables: Tables, t: u16) -> bool
    requires { (valid image.now ≡ true) × Whole image.now tables × (t < type_count image.now) }
    ensures { result ≡ valued (ty_of image.now t).shape }
{
    let row = type_at(image, tables, t);
    if row.kind != 6 {
        return false;
    }
    kind_has_values(AdtKind::from(row.c))
}

// It has the variant v.
fn variant_there(image: &[u8], tables: Tables, t: u16, v: u16) -> bool
    requires { (valid image.now ≡ true) × Whole image.now tables × (t < type_count image.now) }
    ensures { result ≡ has_variant (ty_of image.now t).shape (some v) }
{
    if !has_values(image, tables, t) {
        return false;
    }
    has_variant(image, tables, t, v)
}

// The same, where v may be absent.
pub fn variant_taken(image: &[u8], tables: Tables, t: u16, v: u16) -> bool
    requires { (valid image.now ≡ true) × Whole image.now tables × (t < type_count image.now) }
    ensures { result ≡ has_variant (ty_of image.now t).shape (word? v) }
{
    if v == 65535 {
        return false;
    }
    variant_there(image, tables, t, v)
}

// The `count` fields of a Record from `at` on are among so many.
pub fn fields_there(image: &[u8], tables: Tables, at: u16, count: u16, fields: u16) -> bool
    requires { Whole image.now tables × (at + 2 * count ≤ list_count image.now) }
    ensures { result ≡ fields_there (map word? (listed image.now 2 at count)) fields }
{
    for k in 0..count {
        if fields <= list_at(image, tables, at + 2 * k) {
            return false;
        }
    }
    true
}

// An ellipsis, which may be absent, is not beyond the arguments.
pub fn ellipsis_within(ellipsis: u16, count: u16) -> bool
    ensures { result ≡ ellipsis_within (word? ellipsis) count }
{
    if ellipsis == 65535 {
        return true;
    }
    ellipsis <= count
}

// The binding b has a local.
pub fn has_local(bindings: &[u16], b: BindingId) -> bool
    requires { b.0 < length bindings.now }
    ensures { result ≡ has_local bindings.now b.0 }
{
    bindings[b.0 as usize] != 65535
}

// The binding of a rest of this kind has one. Only of a Bind is the word a of its row a binding.
fn rest_kind_taken(bindings: &[u16], kind: PatKind, a: u16) -> bool
    requires { RestNamed bindings.now kind a }
    ensures { result ≡ rest_kind_taken bindings.now kind a }
{
    match kind {
        PatKind::Bind => has_local(bindings, BindingId(a)),
        _ => true,
    }
}

// That of a rest that may be absent. Where it is absent the word `rest` is 65535.
pub fn rest_taken(image: &[u8], tables: Tables, bindings: &[u16], rest: u16) -> bool
    requires { (valid image.now ≡ true) × Whole image.now tables × (pattern_or_absent image.now rest ≡ true) × (length bindings.now ≡ binding_count image.now) }
    ensures { result ≡ rest_taken? bindings.now (tree? (tree image.now) rest) }
{
    if rest == 65535 {
        return true;
    }
    let row = pat_at(image, tables, PatId(rest));
    rest_kind_taken(bindings, PatKind::from(row.kind), row.a)
}

// One of the two ends of a Range is there.
pub fn has_end(start: u16, end: u16) -> bool
    ensures { result ≡ not (eqb start 65535) || not (eqb end 65535) }
{
    if start != 65535 {
        return true;
    }
    end != 65535
}

// A path of this kind is not refused at the type t. The word b is by the kind: a variant, a binding, or a constant's operand.
pub fn path_taken(image: &[u8], tables: Tables, t: u16, kind: PathKind, b: u16) -> bool
    requires { (valid image.now ≡ true) × Whole image.now tables × (t < type_count image.now) }
    ensures { result ≡ path_taken (ty_of image.now t).shape (target kind image.now b) }
{
    match kind {
        PathKind::Variant => variant_there(image, tables, t, b),
        PathKind::Constant => true,
        _ => false,
    }
}

// It has a test there.
pub fn path_fails(image: &[u8], tables: Tables, t: u16, kind: PathKind) -> bool
    requires { (valid image.now ≡ true) × Whole image.now tables × (t < type_count image.now) }
    ensures { result ≡ path_kind_fails (ty_of image.now t).shape kind }
{
    match kind {
        PathKind::Variant => is_enum(image, tables, t),
        PathKind::Constant => true,
        _ => false,
    }
}
