// Ranges: each end is a test, the start before the end.
#![tactic(auto)]

ghost use Rattle.std.specs.Prelude.{◌≡◌, true, ◌<◌};
ghost use Rattle.image.specs.Tables.{Whole, type_count};
ghost use Rattle.image.specs.Patterns.{operand_or_absent};
ghost use Rattle.image.specs.Types.{is_set};
ghost use Rattle.image.specs.Tree.{operand?};
ghost use Rattle.image.specs.Valid.{valid};
ghost use Rattle.pattern_matching.specs.Tests.{range_end?};
ghost use Rattle.pattern_matching.specs.Patterns.{range_pattern};
ghost use Rattle.pattern_walk_spec.specs.Answers.{Begins, Lowers};
ghost use Rattle.pattern_ranges.specs.Ranges.{range_test};
ghost use Rattle.body_tables.specs.Layout.{body_of};
ghost use Rattle.state.specs.Promises.{Ready};

use body_tables::BODY_WORDS;
use image::{PatId, Tables};
use literals::lower_literal_or_const_to_operand;
use mir::blocks::new_basic_block;
use mir::rvalues::{BinOp, Constant, Left};
use mir::{BasicBlockId, Counts};
use pattern_matching::{MatchingMode, is_check};
use pattern_range_ends::end_op;
use pattern_switching::{compare, else_block};
use pattern_walk_spec::Lowered;
use place::Place;
use refusals::MirLowerError;

// A place is compared with one end; an else is made before the block that goes on.
fn range_test(
    image: &[u8],
    tables: Tables,
    body: &mut [u16; BODY_WORDS],
    counts: Counts,
    p: PatId,
    op: BinOp,
    constant: Constant,
    current: BasicBlockId,
    els: Option<BasicBlockId>,
    place: Place,
) -> Lowered
    requires { Whole image.now tables × Ready (body_of body.old) counts × Begins counts current els }
    ensures { Lowers (λ ctx. range_test image.now p.0 op constant ctx current els place) counts current els (body_of body.old) result (body_of body.new) }
{
    let (c1, other) = else_block(counts, els).ok_or((MirLowerError::Limit, p))?;
    let (c2, then) = new_basic_block(c1).ok_or((MirLowerError::Limit, p))?;
    match compare(
        image,
        tables,
        body,
        c2,
        op,
        Left::Constant(constant),
        place,
        current,
        then,
        other,
    ) {
        Err(e) => Err((e, p)),
        Ok(c3) => Ok((c3, then, Some(other))),
    }
}

// One end of a range of the type ty, if it is there: its operand begins at the word o of the list.
fn range_end(
    image: &[u8],
    tables: Tables,
    body: &mut [u16; BODY_WORDS],
    counts: Counts,
    p: PatId,
    ty: u16,
    op: BinOp,
    o: u16,
    current: BasicBlockId,
    els: Option<BasicBlockId>,
    place: Place,
) -> Lowered
    requires image_value { (valid image.now ≡ true) × Whole image.now tables × (ty < type_count image.now) × (operand_or_absent image.now o ≡ true) }
    requires ready { Ready (body_of body.old) counts × Begins counts current els }
    ensures { Lowers (λ ctx. range_end? image.now p.0 ty op (operand? image.now o) ctx current els place) counts current els (body_of body.old) result (body_of body.new) }
{
    if o == 65535 {
        return Ok((counts, current, els));
    }
    match lower_literal_or_const_to_operand(image, tables, ty, o) {
        Err(e) => Err((e, p)),
        Ok(constant) => range_test(
            image, tables, body, counts, p, op, constant, current, els, place,
        ),
    }
}

// Both ends of a range of the type ty, in Check: the start is tested whole before the end is looked at.
pub fn pattern_match_range(
    image: &[u8],
    tables: Tables,
    body: &mut [u16; BODY_WORDS],
    counts: Counts,
    mode: MatchingMode,
    p: PatId,
    ty: u16,
    start: u16,
    end: u16,
    half_open: u16,
    current: BasicBlockId,
    els: Option<BasicBlockId>,
    place: Place,
) -> Lowered
    requires image_value { (valid image.now ≡ true) × Whole image.now tables × (ty < type_count image.now) × (operand_or_absent image.now start ≡ true) × (operand_or_absent image.now end ≡ true) }
    requires ready { Ready (body_of body.old) counts × Begins counts current els }
    ensures { Lowers (λ ctx. range_pattern image.now p.0 ty (operand? image.now start) (operand? image.now end) (is_set half_open) mode ctx current els place) counts current els (body_of body.old) result (body_of body.new) }
{
    if !is_check(mode) {
        return Ok((counts, current, els));
    }
    let (c1, then, other) = range_end(
        image,
        tables,
        body,
        counts,
        p,
        ty,
        BinOp::Le,
        start,
        current,
        els,
        place,
    )?;
    range_end(
        image,
        tables,
        body,
        c1,
        p,
        ty,
        end_op(half_open),
        end,
        then,
        other,
        place,
    )
}
