// Literals and constants.
ghost use Rattle.std.specs.Prelude.{◌≡◌, true, ◌<◌};
ghost use Rattle.image.specs.declared.kinds.OperandKind.{OperandKind};
ghost use Rattle.image.specs.Tables.{Whole, type_count};
ghost use Rattle.image.specs.Operands.{operand_holds};
ghost use Rattle.image.specs.Types.{operand_of};
ghost use Rattle.image.specs.Valid.{valid};
ghost use Rattle.pattern_matching.specs.Tests.{pattern_match_const, lit_by, constant_path};
ghost use Rattle.pattern_walk_spec.specs.Answers.{Begins, Lowers};
ghost use Rattle.pattern_tests.specs.Testing.{is_literal, constant_compared};
ghost use Rattle.body_tables.specs.Layout.{body_of};
ghost use Rattle.state.specs.Promises.{Ready};

use body_assignments::{push_binary_assignment, push_constant_assignment};
use body_tables::BODY_WORDS;
use body_temps::temp;
use image::kinds::OperandKind;
use image::rows::operand_at;
use image::{PatId, Tables};
use literals::{lower_const_to_operand, lower_literal_to_operand};
use mir::blocks::new_basic_block;
use mir::locals::BOOL;
use mir::rvalues::{BinOp, Constant, Left};
use mir::{BasicBlockId, Counts};
use pattern_matching::{MatchingMode, is_check};
use pattern_switching::{compare, else_block, then_switch};
use pattern_walk_spec::Lowered;
use place::{LocalId, Place};
use refusals::MirLowerError;

// A place is compared with a constant; the block that goes on is made before an else.
pub fn pattern_match_const(
    image: &[u8],
    tables: Tables,
    body: &mut [u16; BODY_WORDS],
    counts: Counts,
    p: PatId,
    constant: Constant,
    current: BasicBlockId,
    els: Option<BasicBlockId>,
    place: Place,
) -> Lowered
    requires { Whole image.now tables × Ready (body_of body.old) counts × Begins counts current els }
    ensures { Lowers (λ ctx. pattern_match_const image.now p.0 constant ctx current els place) counts current els (body_of body.old) result (body_of body.new) }
{
    let (c1, then) = new_basic_block(counts).ok_or((MirLowerError::Limit, p))?;
    let (c2, other) = else_block(c1, els).ok_or((MirLowerError::Limit, p))?;
    match compare(
        image,
        tables,
        body,
        c2,
        BinOp::Eq,
        Left::Constant(constant),
        place,
        current,
        then,
        other,
    ) {
        Err(e) => Err((e, p)),
        Ok(c3) => Ok((c3, then, Some(other))),
    }
}

// An operand of these kinds is a literal.
#[tactic(auto, unfolding(crate::specs::Testing::is_literal))]
pub fn is_literal(kind: OperandKind) -> bool
    ensures { result ≡ is_literal kind }
{
    !matches!(
        kind,
        OperandKind::Constant | OperandKind::Other | OperandKind::Unknown
    )
}

// A literal pattern of the type ty, whose operand begins at the word o of the list: it tests in Check, and what is no literal is refused in every mode.
pub fn pattern_match_lit(
    image: &[u8],
    tables: Tables,
    body: &mut [u16; BODY_WORDS],
    counts: Counts,
    mode: MatchingMode,
    p: PatId,
    ty: u16,
    o: u16,
    current: BasicBlockId,
    els: Option<BasicBlockId>,
    place: Place,
) -> Lowered
    requires image_value { (valid image.now ≡ true) × Whole image.now tables × (ty < type_count image.now) × (operand_holds image.now o ≡ true) }
    requires ready { Ready (body_of body.old) counts × Begins counts current els }
    ensures { Lowers (λ ctx. lit_by (operand_of image.now o).kind image.now p.0 ty (operand_of image.now o) mode ctx current els place) counts current els (body_of body.old) result (body_of body.new) }
{
    if !is_literal(OperandKind::from(operand_at(image, tables, o).kind)) {
        return Err((MirLowerError::NotSupported, p));
    }
    if !is_check(mode) {
        return Ok((counts, current, els));
    }
    match lower_literal_to_operand(image, tables, ty, o) {
        Err(e) => Err((e, p)),
        Ok(constant) => pattern_match_const(
            image, tables, body, counts, p, constant, current, els, place,
        ),
    }
}

// A constant that lies in the local l is compared with a place; the block that goes on is made before an else.
fn constant_compared(
    image: &[u8],
    tables: Tables,
    body: &mut [u16; BODY_WORDS],
    counts: Counts,
    p: PatId,
    l: LocalId,
    current: BasicBlockId,
    els: Option<BasicBlockId>,
    place: Place,
) -> Lowered
    requires { Whole image.now tables × Ready (body_of body.old) counts × Begins counts current els }
    ensures { Lowers (λ ctx. constant_compared image.now p.0 l ctx current els place) counts current els (body_of body.old) result (body_of body.new) }
{
    match temp(image, tables, body, counts, BOOL, current) {
        Err(e) => Err((e, p)),
        Ok((c1, test)) => {
            let full = (MirLowerError::Limit, p);
            let c2 = push_binary_assignment(
                body,
                c1,
                current,
                test,
                BinOp::Eq,
                Left::Local(l),
                place,
            ).ok_or(full)?;
            then_switch(body, c2, p, test, 1, 0, current, els)
        }
    }
}

// A path of the type ty that names the evaluated constant whose operand begins at the word o of the list: in Check the constant is copied to a temporary and
// compared.
pub fn constant_path(
    image: &[u8],
    tables: Tables,
    body: &mut [u16; BODY_WORDS],
    counts: Counts,
    mode: MatchingMode,
    p: PatId,
    ty: u16,
    o: u16,
    current: BasicBlockId,
    els: Option<BasicBlockId>,
    place: Place,
) -> Lowered
    requires whole { Whole image.now tables × (operand_holds image.now o ≡ true) × ((operand_of image.now o).kind ≡ OperandKind.Constant) }
    requires ready { Ready (body_of body.old) counts × Begins counts current els }
    ensures { Lowers (λ ctx. constant_path image.now p.0 ty (operand_of image.now o) mode ctx current els place) counts current els (body_of body.old) result (body_of body.new) }
{
    if !is_check(mode) {
        return Ok((counts, current, els));
    }
    let constant = lower_const_to_operand(image, tables, ty, o);
    match temp(image, tables, body, counts, ty, current) {
        Err(e) => Err((e, p)),
        Ok((c1, l)) => {
            let full = (MirLowerError::Limit, p);
            let c2 = push_constant_assignment(body, c1, current, l, constant).ok_or(full)?;
            constant_compared(image, tables, body, c2, p, l, current, els, place)
        }
    }
}
