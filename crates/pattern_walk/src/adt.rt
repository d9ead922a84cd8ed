// Variants, and the fields of variants and tuples.
ghost use Rattle.std.specs.Prelude.{◌<◌};
ghost use Rattle.image.specs.Tables.{pattern_count, variant_count};
ghost use Rattle.image.specs.Tree.{tree, word?, trees};
ghost use Rattle.pattern_matching.specs.Variants.{pattern_match_adt, pattern_match_tuple_like, ellipsis_at, pattern_matching_variant};
ghost use Rattle.pattern_matching.specs.Patterns.{lowerings};
ghost use Rattle.pattern_walk_spec.specs.Answers.{Walks};
ghost use Rattle.pattern_nodes.specs.Arguments.{shape_of, lowered, ArgumentsThere, argument_elems, argument_pats, ShapeThere};
ghost use Rattle.pattern_walk_laws.specs.Walk.{Walkable};
ghost use Rattle.pattern_rows.specs.declared.ArgumentRow.{ArgumentRow};
ghost use Rattle.body_tables.specs.Layout.{body_of};

use super::{pattern_match_inner, pattern_matching_variant_fields};
use body_tables::BODY_WORDS;
use image::rows::variant_at;
use image::{PatId, Tables};
use mir::{BasicBlockId, Counts};
use pattern_entering::{VISIT_WORDS, visit};
use pattern_idle::nothing_to_do;
use pattern_items::argument_elem;
use pattern_leaves::modes::enum_test;
use pattern_matching::MatchingMode;
use pattern_parts::adts::{VariantOf, adt_at, place_ty};
use pattern_rows::{AdtPatternShape, ArgumentRow, argument_pat, ellipsis_at, least};
use pattern_walk_spec::Lowered;
use place::elems::ProjectionElem;
use place::{Place, project};
use refusals::MirLowerError;

// Arguments in a row, so many, each on the place one element on. One at which there is nothing to do is visited where it stands.
#[cycle(walk)]
pub fn pattern_match_adt(
    image: &[u8],
    tables: Tables,
    bindings: &[u16],
    body: &mut [u16; BODY_WORDS],
    visits: &mut [u16; VISIT_WORDS],
    counts: Counts,
    mode: MatchingMode,
    p: PatId,
    row: ArgumentRow,
    from: u16,
    fields: u16,
    count: u16,
    current: BasicBlockId,
    els: Option<BasicBlockId>,
    place: Place,
) -> Lowered
    requires walkable { Walkable image.now tables bindings.now (body_of body.old) counts current els place }
    requires p_bound { (p.0 < pattern_count image.now) × ArgumentsThere row image.now p.0 from fields count }
    ensures { Walks (λ ctx. pattern_match_adt p.0 (argument_elems row image.now from fields 0 count) (lowerings image.now bindings.now (trees (tree image.now) (argument_pats row image.now from 0 count))) mode ctx current els place) counts current els (body_of body.old) visits.old result (body_of body.new) visits.new }
{
    let mut c = counts;
    let mut here = current;
    let mut other = els;
    for i in 0..count {
        if 16 <= place.len {
            return Err((MirLowerError::Limit, p));
        }
        let q = argument_pat(image, tables, row, from, i);
        if nothing_to_do(image, tables, mode, q) {
            visit(visits, q);
            continue;
        }
        let onward = project(place, argument_elem(image, tables, row, from, fields, i));
        let (c1, b1, e1) = pattern_match_inner(
            image,
            tables,
            bindings,
            body,
            visits,
            c,
            mode,
            q,
            here,
            other,
            onward.place,
        )?;
        c = c1;
        here = b1;
        other = e1;
    }
    Ok((c, here, other))
}

// The `count` arguments from the word `from` of the list on: those before the ellipsis on the first of so many fields, then those behind it on the last ones,
// from the last on. A surplus of arguments is dropped.
#[cycle(walk)]
pub fn pattern_match_tuple_like(
    image: &[u8],
    tables: Tables,
    bindings: &[u16],
    body: &mut [u16; BODY_WORDS],
    visits: &mut [u16; VISIT_WORDS],
    counts: Counts,
    mode: MatchingMode,
    p: PatId,
    from: u16,
    count: u16,
    ellipsis: u16,
    fields: u16,
    current: BasicBlockId,
    els: Option<BasicBlockId>,
    place: Place,
) -> Lowered
    requires walkable { Walkable image.now tables bindings.now (body_of body.old) counts current els place }
    requires p_bound { (p.0 < pattern_count image.now) × ArgumentsThere ArgumentRow.Items image.now p.0 from 0 count }
    ensures { Walks (λ ctx. pattern_match_tuple_like p.0 (lowered image.now bindings.now from count) (ellipsis_at (word? ellipsis) (lowered image.now bindings.now from count)) fields mode ctx current els place) counts current els (body_of body.old) visits.old result (body_of body.new) visits.new }
{
    let before = ellipsis_at(ellipsis, count);
    if count < before {
        return Err((MirLowerError::Ellipsis, p));
    }
    let (c1, then, other) = pattern_match_adt(
        image,
        tables,
        bindings,
        body,
        visits,
        counts,
        mode,
        p,
        ArgumentRow::Fields,
        from,
        fields,
        least(before, fields),
        current,
        els,
        place,
    )?;
    if count == before {
        return Ok((c1, then, other));
    }
    pattern_match_adt(
        image,
        tables,
        bindings,
        body,
        visits,
        c1,
        mode,
        p,
        ArgumentRow::LastFields,
        from + count,
        fields,
        least(count - before, fields),
        then,
        other,
        place,
    )
}

// The variant v of the struct or enum at the place: an enum is tested in Check, and its fields lie behind the choice of the variant.
#[cycle(walk)]
pub fn pattern_matching_variant(
    image: &[u8],
    tables: Tables,
    bindings: &[u16],
    body: &mut [u16; BODY_WORDS],
    visits: &mut [u16; VISIT_WORDS],
    counts: Counts,
    mode: MatchingMode,
    p: PatId,
    v: u16,
    shape: AdtPatternShape,
    current: BasicBlockId,
    els: Option<BasicBlockId>,
    place: Place,
) -> Lowered
    requires walkable { Walkable image.now tables bindings.now (body_of body.old) counts current els place }
    requires p_bound { (p.0 < pattern_count image.now) × (v < variant_count image.now) × ShapeThere image.now p.0 shape }
    ensures { Walks (λ ctx. pattern_matching_variant image.now p.0 v (shape_of image.now bindings.now shape) mode ctx current els place) counts current els (body_of body.old) visits.old result (body_of body.new) visits.new }
{
    let fields = variant_at(image, tables, v).count;
    match adt_at(image, tables, place_ty(image, tables, body, place), v) {
        Err(e) => Err((e, p)),
        Ok(VariantOf::Struct) => pattern_matching_variant_fields(
            image, tables, bindings, body, visits, counts, mode, p, shape, fields, current, els,
            place,
        ),
        Ok(VariantOf::Enum) => {
            let (c1, then, other) = enum_test(
                image, tables, body, counts, mode, p, v, current, els, place,
            )?;
            let chosen = project(place, ProjectionElem::Downcast(v));
            if !chosen.ok {
                return Err((MirLowerError::Limit, p));
            }
            pattern_matching_variant_fields(
                image,
                tables,
                bindings,
                body,
                visits,
                c1,
                mode,
                p,
                shape,
                fields,
                then,
                other,
                chosen.place,
            )
        }
    }
}
