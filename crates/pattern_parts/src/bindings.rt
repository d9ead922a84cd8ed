// What bindings are filled with.
ghost use Rattle.std.specs.Prelude.{◌≡◌, true, ◌||◌, ◌<◌, eqb, ltb, length};
ghost use Rattle.image.specs.Tables.{Whole, pattern_count, binding_count};
ghost use Rattle.image.specs.Valid.{valid};
ghost use Rattle.image.specs.Tree.{tree, tree?};
ghost use Rattle.pattern_matching.specs.Tests.{binding_rvalue, pattern_match_binding, local_path};
ghost use Rattle.pattern_matching.specs.Slices.{rest_bound};
ghost use Rattle.pattern_matching.specs.Patterns.{rest_of};
ghost use Rattle.pattern_walk_spec.specs.Answers.{Begins, Lowers};
ghost use Rattle.pattern_parts.specs.Parts.{is_bind, rest_filled};
ghost use Rattle.state.specs.Promises.{Ready};
ghost use Rattle.body_tables.specs.Layout.{body_of};

use body_assignments::push_assignment;
use body_live_marks::push_storage_live_for_local;
use body_locals::binding_local;
use body_tables::BODY_WORDS;
use image::kinds::{BindingMode, PatKind};
use image::rows::pat_at;
use image::{BindingId, PatId, Tables};
use mir::rvalues::PlaceRvalue;
use mir::{BasicBlockId, Counts};
use pattern_matching::{MatchingMode, is_check};
use pattern_walk_spec::Lowered;
use place::elems::ProjectionElem;
use place::{Place, project};
use refusals::MirLowerError;

fn binding_rvalue(how: BindingMode) -> PlaceRvalue
    ensures { result ≡ binding_rvalue how }
{
    match how {
        BindingMode::Ref => PlaceRvalue::Ref,
        BindingMode::RefMut => PlaceRvalue::Mut,
        _ => PlaceRvalue::Copy,
    }
}

// The local of the binding b, which is looked up for the pattern q, is made live and filled, while p is visited.
pub fn pattern_match_binding(
    bindings: &[u16],
    body: &mut [u16; BODY_WORDS],
    counts: Counts,
    p: PatId,
    q: PatId,
    b: BindingId,
    how: BindingMode,
    current: BasicBlockId,
    els: Option<BasicBlockId>,
    place: Place,
) -> Lowered
    requires { (b.0 < length bindings.now) × Ready (body_of body.old) counts × Begins counts current els }
    ensures { Lowers (λ ctx. pattern_match_binding bindings.now p.0 q.0 b.0 how ctx current els place) counts current els (body_of body.old) result (body_of body.new) }
{
    match binding_local(bindings, b) {
        Err(e) => Err((e, q)),
        Ok(l) => match push_storage_live_for_local(body, counts, l, current) {
            Err(e) => Err((e, p)),
            Ok(c1) => {
                let full = (MirLowerError::Limit, p);
                let c2 = push_assignment(body, c1, current, l, binding_rvalue(how), place).ok_or(
                    full,
                )?;
                Ok((c2, current, els))
            }
        },
    }
}

// A path that names the local of the binding b: assigned to in Assign, refused in Check, and nothing in Bind.
pub fn local_path(
    bindings: &[u16],
    body: &mut [u16; BODY_WORDS],
    counts: Counts,
    mode: MatchingMode,
    p: PatId,
    b: BindingId,
    current: BasicBlockId,
    els: Option<BasicBlockId>,
    place: Place,
) -> Lowered
    requires { (b.0 < length bindings.now) × Begins counts current els }
    ensures { Lowers (λ ctx. local_path bindings.now p.0 b.0 mode ctx current els place) counts current els (body_of body.old) result (body_of body.new) }
{
    match mode {
        MatchingMode::Check => Err((MirLowerError::NotSupported, p)),
        MatchingMode::Bind => Ok((counts, current, els)),
        MatchingMode::Assign => match binding_local(bindings, b) {
            Err(e) => Err((e, p)),
            Ok(l) => {
                let full = (MirLowerError::Limit, p);
                let c1 = push_assignment(body, counts, current, l, PlaceRvalue::Copy, place).ok_or(
                    full,
                )?;
                Ok((c1, current, els))
            }
        },
    }
}

#[tactic(auto, unfolding(crate::specs::Parts::is_bind))]
pub fn is_bind(kind: PatKind) -> bool
    ensures { result ≡ is_bind kind }
{
    matches!(kind, PatKind::Bind)
}

// A rest is filled: the pattern `rest`, which binds b, with what lies between so many items in front and so many at the end.
fn fill_rest(
    bindings: &[u16],
    body: &mut [u16; BODY_WORDS],
    counts: Counts,
    p: PatId,
    rest: PatId,
    b: BindingId,
    how: BindingMode,
    front: u16,
    end: u16,
    current: BasicBlockId,
    els: Option<BasicBlockId>,
    place: Place,
) -> Lowered
    requires { (b.0 < length bindings.now) × (end < 8192) × Ready (body_of body.old) counts × Begins counts current els }
    ensures { Lowers (λ ctx. rest_filled bindings.now p.0 rest.0 b.0 how front end ctx current els place) counts current els (body_of body.old) result (body_of body.new) }
{
    let part = project(place, ProjectionElem::Subslice(front, end));
    if !part.ok {
        return Err((MirLowerError::Limit, p));
    }
    pattern_match_binding(
        bindings, body, counts, p, rest, b, how, current, els, part.place,
    )
}

// Beyond Check a Slice's rest that binds, the pattern `rest` if there is one, is filled.
pub fn rest_bound(
    image: &[u8],
    tables: Tables,
    bindings: &[u16],
    body: &mut [u16; BODY_WORDS],
    counts: Counts,
    mode: MatchingMode,
    p: PatId,
    rest: u16,
    front: u16,
    end: u16,
    current: BasicBlockId,
    els: Option<BasicBlockId>,
    place: Place,
) -> Lowered
    requires image_value { (valid image.now ≡ true) × Whole image.now tables × (eqb rest 65535 || ltb rest (pattern_count image.now) ≡ true) × (length bindings.now ≡ binding_count image.now) × (end < 8192) }
    requires ready { Ready (body_of body.old) counts × Begins counts current els }
    ensures { Lowers (λ ctx. rest_bound (rest_of (tree? (tree image.now) rest)) bindings.now p.0 front end mode ctx current els place) counts current els (body_of body.old) result (body_of body.new) }
{
    if rest == 65535 {
        return Ok((counts, current, els));
    }
    if is_check(mode) {
        return Ok((counts, current, els));
    }
    let row = pat_at(image, tables, PatId(rest));
    if !is_bind(PatKind::from(row.kind)) {
        return Ok((counts, current, els));
    }
    fill_rest(
        bindings,
        body,
        counts,
        p,
        PatId(rest),
        BindingId(row.a),
        BindingMode::from(row.c),
        front,
        end,
        current,
        els,
        place,
    )
}
