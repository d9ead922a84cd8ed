// The rules on numbers that may stand only once: a pattern is used once, and a variant has one ADT. Each number is marked when it is first met.
#![tactic(auto)]

ghost use Rattle.std.specs.Prelude.{◌≡◌, true, ◌+◌, ◌<◌, ◌≤◌, length, replicate};
ghost use Rattle.image.specs.Tables.{Whole, type_count, variant_count, pattern_count, list_count};
ghost use Rattle.image.specs.Lists.{all_below};
ghost use Rattle.image.specs.Rules.{type_holds, variants_of, adts_share_no_variant};
ghost use Rattle.image.specs.Subpatterns.{subpatterns_by, subpatterns};
ghost use Rattle.image.specs.Patterns.{pattern_shape_holds, pattern_holds};
ghost use Rattle.marks.specs.Marks.{Taken};

use image::kinds::{PatKind, TypeKind};
use image::rows::{PatRow, pat_at, type_at};
use image::{PatId, Tables};
use marks::{take, take_listed, take_present, take_range};

// The items of a slice: its prefix, its suffix and its rest.
fn take_slice(image: &[u8], tables: Tables, bound: u16, marks: &mut [u8], row: PatRow) -> bool
    requires { Whole image.now tables × (bound ≤ length marks.old) × (pattern_shape_holds PatKind.Slice image.now row ≡ true) × (list_count image.now ≤ 2048) }
    ensures { Taken bound marks.old marks.new (subpatterns_by PatKind.Slice image.now row) result }
{
    if !take_listed(image, tables, bound, marks, 1, row.a, row.b) {
        return false;
    }
    if !take_listed(image, tables, bound, marks, 1, row.a + row.b, row.c) {
        return false;
    }
    take_present(bound, marks, row.d)
}

// The subpatterns of a row.
fn take_row(
    image: &[u8],
    tables: Tables,
    bound: u16,
    marks: &mut [u8],
    row: PatRow,
    kind: PatKind,
) -> bool
    requires { Whole image.now tables × (bound ≤ length marks.old) × (pattern_shape_holds kind image.now row ≡ true) × (list_count image.now ≤ 2048) }
    ensures { Taken bound marks.old marks.new (subpatterns_by kind image.now row) result }
{
    match kind {
        PatKind::Tuple => take_listed(image, tables, bound, marks, 1, row.a, row.b),
        PatKind::Or => take_listed(image, tables, bound, marks, 1, row.a, row.b),
        PatKind::Record => take_listed(image, tables, bound, marks, 2, row.a + 1, row.b),
        PatKind::Slice => take_slice(image, tables, bound, marks, row),
        PatKind::Bind => take_present(bound, marks, row.b),
        PatKind::TupleStruct => take_listed(image, tables, bound, marks, 1, row.a, row.b),
        PatKind::Ref => take(bound, marks, row.a),
        _ => true,
    }
}

// The subpatterns of p, each below p. A walk over all patterns, from marks of zero, shows that none is used twice.
pub fn take_subpatterns(image: &[u8], tables: Tables, marks: &mut [u8], p: PatId) -> bool
    requires { Whole image.now tables × (p.0 < pattern_count image.now) × (p.0 ≤ length marks.old) × (pattern_holds image.now p.0 ≡ true) × (list_count image.now ≤ 2048) }
    ensures { Taken p.0 marks.old marks.new (subpatterns image.now p.0) result }
{
    let row = pat_at(image, tables, p);
    take_row(image, tables, p.0, marks, row, PatKind::from(row.kind))
}

// The variants of t.
fn take_variants(image: &[u8], tables: Tables, marks: &mut [u8], t: u16) -> bool
    requires { Whole image.now tables × (t < type_count image.now) × (variant_count image.now ≤ length marks.old) × (variant_count image.now ≤ 512) × (type_holds image.now t ≡ true) }
    ensures { Taken (variant_count image.now) marks.old marks.new (variants_of image.now t) result }
{
    let row = type_at(image, tables, t);
    let kind = TypeKind::from(row.kind);
    let TypeKind::Adt = kind else {
        return true;
    };
    take_range(tables.variants.count, marks, row.a, row.b)
}

// The variants of every type.
fn take_adts(image: &[u8], tables: Tables, marks: &mut [u8]) -> bool
    requires { Whole image.now tables × (marks.old ≡ replicate 512 0) × (variant_count image.now ≤ 512) × (all_below (type_holds image.now) (type_count image.now) ≡ true) }
    ensures { result ≡ adts_share_no_variant image.now }
{
    for t in 0..tables.types.count {
        if !take_variants(image, tables, marks, t) {
            return false;
        }
    }
    true
}

// ADTs share no variant.
pub fn adts_apart(image: &[u8], tables: Tables) -> bool
    requires { Whole image.now tables × (variant_count image.now ≤ 512) × (all_below (type_holds image.now) (type_count image.now) ≡ true) }
    ensures { result ≡ adts_share_no_variant image.now }
{
    let mut marks = [0u8; 512];
    take_adts(image, tables, &mut marks)
}
