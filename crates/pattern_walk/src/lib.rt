// The walk over patterns: the lowering of a pattern, of a variant, of fields and of arguments call each other. With each call a pair falls: the pattern's number, and
// behind it the rank of the function. The tables are lent, the counts go in and come out by value, and the first refusal stops the walk.
#![tactic(auto)]

pub mod adt; // adt.rt: variants and arguments
pub mod entering; // entering.rt: visits and derefs, and Binds in Check
pub mod sub; // sub.rt: Bind, Or and Slice patterns

ghost use Rattle.std.specs.Prelude.{◌<◌};
ghost use Rattle.image.specs.Tables.{pattern_count};
ghost use Rattle.image.specs.Tree.{tree};
ghost use Rattle.pattern_matching.specs.Variants.{variant_fields};
ghost use Rattle.pattern_matching.specs.Patterns.{pattern_match_inner};
ghost use Rattle.pattern_walk_spec.specs.Answers.{Walks};
ghost use Rattle.pattern_nodes.specs.Arguments.{shape_of, ShapeThere};
ghost use Rattle.pattern_walk_laws.specs.Walk.{Walkable};
ghost use Rattle.body_tables.specs.Layout.{body_of};

use adt::{pattern_match_adt, pattern_match_tuple_like, pattern_matching_variant};
use body_tables::BODY_WORDS;
use entering::enter;
use image::kinds::{PatKind, PathKind};
use image::rows::pat_at;
use image::{PatId, Tables};
use mir::{BasicBlockId, Counts};
use pattern_entering::VISIT_WORDS;
use pattern_leaves::kinds::{is_leaf, pattern_match_leaf};
use pattern_matching::MatchingMode;
use pattern_parts::adts::{fields_there, place_ty, reference_at, tuple_at};
use pattern_rows::{
    AdtPatternShape, ArgumentRow, CompoundKind, compound_kind, variant_shape, variant_word,
};
use pattern_walk_spec::Lowered;
use place::elems::ProjectionElem;
use place::{Place, project};
use refusals::MirLowerError;
use sub::{alts, bound, slice};

// The pattern p: it is entered, and lowered by the kind of the pattern at which the walk then is.
#[cycle(walk)]
pub fn pattern_match_inner(
    image: &[u8],
    tables: Tables,
    bindings: &[u16],
    body: &mut [u16; BODY_WORDS],
    visits: &mut [u16; VISIT_WORDS],
    counts: Counts,
    mode: MatchingMode,
    p: PatId,
    current: BasicBlockId,
    els: Option<BasicBlockId>,
    place: Place,
) -> Lowered
    requires walkable { Walkable image.now tables bindings.now (body_of body.old) counts current els place }
    requires p_bound { p.0 < pattern_count image.now }
    ensures { Walks (λ ctx. pattern_match_inner image.now bindings.now (tree image.now p.0) mode ctx current els place) counts current els (body_of body.old) visits.old result (body_of body.new) visits.new }
{
    let entered = enter(image, tables, visits, mode, p, place);
    let q = entered.p;
    let here = entered.place;
    if !entered.ok {
        return Err((MirLowerError::Limit, q));
    }
    let row = pat_at(image, tables, q);
    if is_leaf(PatKind::from(row.kind), PathKind::from(row.a)) {
        return pattern_match_leaf(
            image, tables, bindings, body, counts, mode, q, row, current, els, here,
        );
    }
    match compound_kind(PatKind::from(row.kind)) {
        CompoundKind::Tuple => match tuple_at(image, tables, place_ty(image, tables, body, here)) {
            Err(e) => Err((e, q)),
            Ok(fields) => pattern_match_tuple_like(
                image, tables, bindings, body, visits, counts, mode, q, row.a, row.b, row.c,
                fields, current, els, here,
            ),
        },
        CompoundKind::Or => alts(
            image, tables, bindings, body, visits, counts, mode, q, row.a, row.b, current, els,
            here,
        ),
        CompoundKind::Slice => slice(
            image, tables, bindings, body, visits, counts, mode, q, row, current, els, here,
        ),
        CompoundKind::Bind => bound(
            image, tables, bindings, body, visits, counts, mode, q, row, current, els, here,
        ),
        CompoundKind::Ref => match reference_at(
            image,
            tables,
            place_ty(image, tables, body, here),
        ) {
            Err(e) => Err((e, q)),
            Ok(()) => {
                let referent = project(here, ProjectionElem::Deref);
                if !referent.ok {
                    return Err((MirLowerError::Limit, q));
                }
                pattern_match_inner(
                    image,
                    tables,
                    bindings,
                    body,
                    visits,
                    counts,
                    mode,
                    PatId(row.a),
                    current,
                    els,
                    referent.place,
                )
            }
        },
        CompoundKind::Variant => {
            let v = variant_word(row);
            if v == 65535 {
                return Err((MirLowerError::NotSupported, q));
            }
            pattern_matching_variant(
                image,
                tables,
                bindings,
                body,
                visits,
                counts,
                mode,
                q,
                v,
                variant_shape(row),
                current,
                els,
                here,
            )
        }
    }
}

// The fields of a variant that has so many.
#[cycle(walk)]
pub fn pattern_matching_variant_fields(
    image: &[u8],
    tables: Tables,
    bindings: &[u16],
    body: &mut [u16; BODY_WORDS],
    visits: &mut [u16; VISIT_WORDS],
    counts: Counts,
    mode: MatchingMode,
    p: PatId,
    shape: AdtPatternShape,
    fields: u16,
    current: BasicBlockId,
    els: Option<BasicBlockId>,
    place: Place,
) -> Lowered
    requires walkable { Walkable image.now tables bindings.now (body_of body.old) counts current els place }
    requires p_bound { (p.0 < pattern_count image.now) × ShapeThere image.now p.0 shape }
    ensures { Walks (λ ctx. variant_fields (shape_of image.now bindings.now shape) p.0 fields mode ctx current els place) counts current els (body_of body.old) visits.old result (body_of body.new) visits.new }
{
    match shape {
        AdtPatternShape::Unit => Ok((counts, current, els)),
        AdtPatternShape::Tuple(from, count, ellipsis) => pattern_match_tuple_like(
            image, tables, bindings, body, visits, counts, mode, p, from, count, ellipsis, fields,
            current, els, place,
        ),
        AdtPatternShape::Record(from, count) => {
            if !fields_there(image, tables, from, count, fields) {
                return Err((MirLowerError::UnresolvedField, p));
            }
            pattern_match_adt(
                image,
                tables,
                bindings,
                body,
                visits,
                counts,
                mode,
                p,
                ArgumentRow::RecordFields,
                from,
                fields,
                count,
                current,
                els,
                place,
            )
        }
    }
}
