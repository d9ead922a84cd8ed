// Patterns that are more than their fields: Bind, Or, whose alternatives are tried from left to right, and Slice.
ghost use Rattle.std.specs.Prelude.{◌<◌, ◌+◌};
ghost use Rattle.image.specs.Tables.{pattern_count, type_count, binding_count};
ghost use Rattle.image.specs.Kinds.{binding_mode};
ghost use Rattle.image.specs.Tree.{tree, tree?};
ghost use Rattle.pattern_matching.specs.Patterns.{pattern_match_inner, rest_of, alternative, or_pattern, bind_pattern, lowering?};
ghost use Rattle.pattern_walk_spec.specs.Answers.{Walks};
ghost use Rattle.pattern_nodes.specs.Arguments.{lowered, ArgumentsThere, SliceThere, SubpatternBelow};
ghost use Rattle.pattern_walk_laws.specs.Walk.{Walkable};
ghost use Rattle.image.specs.Types.{ty_of};
ghost use Rattle.pattern_rows.specs.declared.ArgumentRow.{ArgumentRow};
ghost use Rattle.pattern_matching.specs.Slices.{slice_on};
ghost use Rattle.body_tables.specs.Layout.{body_of};

use super::adt::pattern_match_adt;
use super::pattern_match_inner;
use body_tables::BODY_WORDS;
use body_tables::blocks::set_goto;
use image::kinds::BindingMode;
use image::rows::{PatRow, list_at};
use image::{BindingId, PatId, Tables};
use mir::blocks::new_basic_block;
use mir::{BasicBlockId, Counts};
use pattern_alternatives::with_else;
use pattern_entering::{VISIT_WORDS, visit};
use pattern_idle::nothing_to_do;
use pattern_leaves::modes::{alternatives_end, bind, slice_test};
use pattern_matching::{MatchingMode, is_check};
use pattern_parts::bindings::rest_bound;
use pattern_rows::ArgumentRow;
use pattern_walk_spec::Lowered;
use place::Place;
use refusals::MirLowerError;

// A Bind: its subpattern first, if there is one, and then, beyond Check, the binding.
#[cycle(walk)]
pub fn bound(
    image: &[u8],
    tables: Tables,
    bindings: &[u16],
    body: &mut [u16; BODY_WORDS],
    visits: &mut [u16; VISIT_WORDS],
    counts: Counts,
    mode: MatchingMode,
    p: PatId,
    row: PatRow,
    current: BasicBlockId,
    els: Option<BasicBlockId>,
    place: Place,
) -> Lowered
    requires walkable { Walkable image.now tables bindings.now (body_of body.old) counts current els place }
    requires p_bound { (p.0 < pattern_count image.now) × (row.a < binding_count image.now) × SubpatternBelow row.b p.0 }
    ensures { Walks (λ ctx. bind_pattern bindings.now p.0 row.a (binding_mode row.c) (lowering? image.now bindings.now (tree? (tree image.now) row.b)) mode ctx current els place) counts current els (body_of body.old) visits.old result (body_of body.new) visits.new }
{
    let b = BindingId(row.a);
    let how = BindingMode::from(row.c);
    if row.b == 65535 {
        return bind(bindings, body, counts, mode, p, b, how, current, els, place);
    }
    let (c1, then, other) = pattern_match_inner(
        image,
        tables,
        bindings,
        body,
        visits,
        counts,
        mode,
        PatId(row.b),
        current,
        els,
        place,
    )?;
    bind(bindings, body, c1, mode, p, b, how, then, other, place)
}

// An alternative q: it is tested, and beyond Check walked again in the mode that is asked for, or only visited where there is nothing to do.
#[cycle(walk)]
pub fn alt(
    image: &[u8],
    tables: Tables,
    bindings: &[u16],
    body: &mut [u16; BODY_WORDS],
    visits: &mut [u16; VISIT_WORDS],
    counts: Counts,
    mode: MatchingMode,
    q: PatId,
    current: BasicBlockId,
    place: Place,
) -> Lowered
    requires walkable { Walkable image.now tables bindings.now (body_of body.old) counts current None place }
    requires q_bound { q.0 < pattern_count image.now }
    ensures { Walks (λ ctx. alternative (pattern_match_inner image.now bindings.now (tree image.now q.0)) mode ctx current place) counts current None (body_of body.old) visits.old result (body_of body.new) visits.new }
{
    let (c1, then, other) = pattern_match_inner(
        image,
        tables,
        bindings,
        body,
        visits,
        counts,
        MatchingMode::Check,
        q,
        current,
        None,
        place,
    )?;
    if is_check(mode) {
        return Ok((c1, then, other));
    }
    if nothing_to_do(image, tables, mode, q) {
        visit(visits, q);
        return Ok((c1, then, other));
    }
    let again = pattern_match_inner(
        image, tables, bindings, body, visits, c1, mode, q, then, None, place,
    );
    with_else(again, other)
}

// An Or of the `count` alternatives from the word `from` of the list on, from left to right: one that matched goes on at a new block, the next one starts where it
// does not match, and behind one that cannot fail none is lowered.
#[cycle(walk)]
pub fn alts(
    image: &[u8],
    tables: Tables,
    bindings: &[u16],
    body: &mut [u16; BODY_WORDS],
    visits: &mut [u16; VISIT_WORDS],
    counts: Counts,
    mode: MatchingMode,
    p: PatId,
    from: u16,
    count: u16,
    current: BasicBlockId,
    els: Option<BasicBlockId>,
    place: Place,
) -> Lowered
    requires walkable { Walkable image.now tables bindings.now (body_of body.old) counts current els place }
    requires p_bound { (p.0 < pattern_count image.now) × ArgumentsThere ArgumentRow.Items image.now p.0 from 0 count }
    ensures { Walks (λ ctx. or_pattern p.0 (lowered image.now bindings.now from count) mode ctx current els place) counts current els (body_of body.old) visits.old result (body_of body.new) visits.new }
{
    let (made, join) = new_basic_block(counts).ok_or((MirLowerError::Limit, p))?;
    let mut c = made;
    let mut here = current;
    for i in 0..count {
        let q = PatId(list_at(image, tables, from + i));
        let (c1, then, other) = alt(
            image, tables, bindings, body, visits, c, mode, q, here, place,
        )?;
        set_goto(body, then, join);
        let Some(next) = other else {
            return Ok((c1, join, els));
        };
        c = c1;
        here = next;
    }
    alternatives_end(body, c, mode, p, here, join, els)
}

// A Slice pattern: the test of a slice's length, the items in front, the rest, and the items at the end.
#[cycle(walk)]
pub fn slice(
    image: &[u8],
    tables: Tables,
    bindings: &[u16],
    body: &mut [u16; BODY_WORDS],
    visits: &mut [u16; VISIT_WORDS],
    counts: Counts,
    mode: MatchingMode,
    p: PatId,
    row: PatRow,
    current: BasicBlockId,
    els: Option<BasicBlockId>,
    place: Place,
) -> Lowered
    requires walkable { Walkable image.now tables bindings.now (body_of body.old) counts current els place }
    requires p_bound { (p.0 < pattern_count image.now) × (row.ty < type_count image.now) × SliceThere image.now p.0 row.d row.a row.b row.c }
    ensures { Walks (λ ctx. slice_on (ty_of image.now row.ty).shape image.now bindings.now p.0 (lowered image.now bindings.now row.a row.b) (rest_of (tree? (tree image.now) row.d)) (lowered image.now bindings.now (row.a + row.b) row.c) mode ctx current els place) counts current els (body_of body.old) visits.old result (body_of body.new) visits.new }
{
    let (c1, b1, e1) = slice_test(
        image,
        tables,
        body,
        counts,
        mode,
        p,
        row.ty,
        row.b + row.c,
        row.d,
        current,
        els,
        place,
    )?;
    let (c2, b2, e2) = pattern_match_adt(
        image,
        tables,
        bindings,
        body,
        visits,
        c1,
        mode,
        p,
        ArgumentRow::Items,
        row.a,
        0,
        row.b,
        b1,
        e1,
        place,
    )?;
    let (c3, b3, e3) = rest_bound(
        image, tables, bindings, body, c2, mode, p, row.d, row.b, row.c, b2, e2, place,
    )?;
    if row.c == 0 {
        return Ok((c3, b3, e3));
    }
    pattern_match_adt(
        image,
        tables,
        bindings,
        body,
        visits,
        c3,
        mode,
        p,
        ArgumentRow::LastItems,
        row.a + row.b,
        row.c,
        row.c,
        b3,
        e3,
        place,
    )
}
