// What a pattern with subpatterns does itself: an enum's and a slice's test in Check, a binding and the end of alternatives beyond it.
ghost use Rattle.std.specs.Prelude.{◌≡◌, true, ◌<◌, ◌≤◌, length};
ghost use Rattle.image.specs.Tables.{Whole, type_count, variant_count};
ghost use Rattle.image.specs.Types.{ty_of};
ghost use Rattle.image.specs.Tree.{tree, tree?};
ghost use Rattle.pattern_matching.specs.Patterns.{rest_of};
ghost use Rattle.image.specs.Valid.{valid};
ghost use Rattle.pattern_walk_spec.specs.Answers.{Begins, Lowers, Ends};
ghost use Rattle.pattern_nodes.specs.Modes.{enum_test, slice_test, bound, alternatives_left};
ghost use Rattle.body_tables.specs.Layout.{body_of};
ghost use Rattle.state.specs.Promises.{Ready};

use body_tables::BODY_WORDS;
use body_tables::blocks::{set_goto, set_terminator};
use image::kinds::{BindingMode, TypeKind};
use image::rows::type_at;
use image::{BindingId, PatId, Tables};
use mir::blocks::Terminator;
use mir::{BasicBlockId, Counts};
use pattern_items::sequence_of;
use pattern_matching::{MatchingMode, is_check};
use pattern_parts::bindings::pattern_match_binding;
use pattern_rows::Sequence;
use pattern_switching::else_block;
use pattern_tests::discriminants::discriminant_test;
use pattern_tests::lengths::length_test;
use pattern_walk_spec::Lowered;
use place::Place;
use refusals::MirLowerError;

// In Check what lies at the place is tested to have the variant v.
pub fn enum_test(
    image: &[u8],
    tables: Tables,
    body: &mut [u16; BODY_WORDS],
    counts: Counts,
    mode: MatchingMode,
    p: PatId,
    v: u16,
    current: BasicBlockId,
    els: Option<BasicBlockId>,
    place: Place,
) -> Lowered
    requires image_value { (valid image.now ≡ true) × Whole image.now tables × (v < variant_count image.now) }
    requires ready { Ready (body_of body.old) counts × Begins counts current els }
    ensures { Lowers (λ ctx. enum_test image.now p.0 v mode ctx current els place) counts current els (body_of body.old) result (body_of body.new) }
{
    if !is_check(mode) {
        return Ok((counts, current, els));
    }
    discriminant_test(image, tables, body, counts, p, v, current, els, place)
}

// A Slice pattern of the type ty, which has n items besides the pattern `rest`, if there is one: in Check a slice's length is tested, an array's never; any other type is refused.
#[inline(never)] // its frame would stand in every turn of the walk
pub fn slice_test(
    image: &[u8],
    tables: Tables,
    body: &mut [u16; BODY_WORDS],
    counts: Counts,
    mode: MatchingMode,
    p: PatId,
    ty: u16,
    n: u16,
    rest: u16,
    current: BasicBlockId,
    els: Option<BasicBlockId>,
    place: Place,
) -> Lowered
    requires whole { Whole image.now tables × (ty < type_count image.now) }
    requires ready { Ready (body_of body.old) counts × Begins counts current els }
    ensures { Lowers (λ ctx. slice_test (ty_of image.now ty).shape image.now p.0 n (rest_of (tree? (tree image.now) rest)) mode ctx current els place) counts current els (body_of body.old) result (body_of body.new) }
{
    match sequence_of(TypeKind::from(type_at(image, tables, ty).kind)) {
        Sequence::Other => Err((MirLowerError::TypeError(2), p)),
        Sequence::Array => Ok((counts, current, els)),
        Sequence::Slice => {
            if !is_check(mode) {
                return Ok((counts, current, els));
            }
            length_test(
                image,
                tables,
                body,
                counts,
                p,
                n,
                rest != 65535,
                current,
                els,
                place,
            )
        }
    }
}

// Beyond Check the binding b is filled.
pub fn bind(
    bindings: &[u16],
    body: &mut [u16; BODY_WORDS],
    counts: Counts,
    mode: MatchingMode,
    p: PatId,
    b: BindingId,
    how: BindingMode,
    current: BasicBlockId,
    els: Option<BasicBlockId>,
    place: Place,
) -> Lowered
    requires { (b.0 < length bindings.now) × Ready (body_of body.old) counts × Begins counts current els }
    ensures { Lowers (λ ctx. bound bindings.now p.0 b.0 how mode ctx current els place) counts current els (body_of body.old) result (body_of body.new) }
{
    if is_check(mode) {
        return Ok((counts, current, els));
    }
    pattern_match_binding(bindings, body, counts, p, p, b, how, current, els, place)
}

// All alternatives can fail, and `left` is where the last of them does not match: it goes on at the else in Check, and cannot be reached beyond it. What matched
// goes on at `join`.
#[inline(never)] // its frame would stand in every turn of the walk
pub fn alternatives_end(
    body: &mut [u16; BODY_WORDS],
    counts: Counts,
    mode: MatchingMode,
    p: PatId,
    left: BasicBlockId,
    join: BasicBlockId,
    els: Option<BasicBlockId>,
) -> Lowered
    requires { (counts.blocks ≤ 512) × Begins counts left els × (join.0 < counts.blocks) }
    ensures { Ends (λ ctx. alternatives_left p.0 mode ctx left join els) counts left join els (body_of body.old) result (body_of body.new) }
{
    if !is_check(mode) {
        set_terminator(body, left, Terminator::Unreachable);
        return Ok((counts, join, els));
    }
    let (c1, other) = else_block(counts, els).ok_or((MirLowerError::Limit, p))?;
    set_goto(body, left, other);
    Ok((c1, join, Some(other)))
}
