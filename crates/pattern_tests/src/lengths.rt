// The length of a slice.
ghost use Rattle.std.specs.Prelude.{◌≡◌, ◌<◌};
ghost use Rattle.image.specs.Tables.{Whole};
ghost use Rattle.pattern_matching.specs.Slices.{length_constant};
ghost use Rattle.pattern_walk_spec.specs.Answers.{Begins, Lowers};
ghost use Rattle.pattern_switching.specs.Switching.{Steps};
ghost use Rattle.pattern_tests.specs.Testing.{length_end, length_switch, length_test_by};
ghost use Rattle.body_tables.specs.Layout.{body_of};
ghost use Rattle.state.specs.Promises.{Ready};

use body_assignments::push_assignment;
use body_tables::BODY_WORDS;
use body_tables::blocks::set_terminator;
use body_temps::temp;
use image::{PatId, Tables};
use mir::blocks::{Terminator, new_basic_block};
use mir::locals::USIZE;
use mir::rvalues::{BinOp, Constant, Left, PlaceRvalue};
use mir::{BasicBlockId, Counts};
use pattern_switching::{compare, else_block};
use pattern_walk_spec::Lowered;
use place::{LocalId, Place};
use refusals::MirLowerError;

// How many items a slice must have, as an operand.
fn length_constant(n: u16) -> Constant
    ensures { result ≡ length_constant n }
{
    Constant {
        count: 8,
        ty: USIZE,
        offset: 0,
        low: n as u64,
        high: 0,
    }
}

// The end of the test, where the local l holds the length: exactly n, or with a rest at least n.
fn length_end(
    image: &[u8],
    tables: Tables,
    body: &mut [u16; BODY_WORDS],
    counts: Counts,
    l: LocalId,
    n: u16,
    rest: bool,
    current: BasicBlockId,
    then: BasicBlockId,
    other: BasicBlockId,
) -> Result<Counts, MirLowerError>
    requires { Whole image.now tables × Ready (body_of body.old) counts × (current.0 < counts.blocks) }
    ensures { Steps (λ st. length_end image.now l n rest st current then other) counts current (body_of body.old) result (body_of body.new) }
{
    if !rest {
        let switch = Terminator::Switch(l, n as u64, 0, then, other);
        set_terminator(body, current, switch);
        return Ok(counts);
    }
    let length = Place {
        local: l,
        len: 0,
        elems: [0u32; 16],
    };
    compare(
        image,
        tables,
        body,
        counts,
        BinOp::Le,
        Left::Constant(length_constant(n)),
        length,
        current,
        then,
        other,
    )
}

// The blocks of the test, where the local l holds the length: an else is made before the block that goes on.
fn length_switch(
    image: &[u8],
    tables: Tables,
    body: &mut [u16; BODY_WORDS],
    counts: Counts,
    p: PatId,
    l: LocalId,
    n: u16,
    rest: bool,
    current: BasicBlockId,
    els: Option<BasicBlockId>,
) -> Lowered
    requires { Whole image.now tables × Ready (body_of body.old) counts × Begins counts current els }
    ensures { Lowers (λ ctx. length_switch image.now p.0 l n rest ctx current els) counts current els (body_of body.old) result (body_of body.new) }
{
    let (c1, other) = else_block(counts, els).ok_or((MirLowerError::Limit, p))?;
    let (c2, then) = new_basic_block(c1).ok_or((MirLowerError::Limit, p))?;
    match length_end(image, tables, body, c2, l, n, rest, current, then, other) {
        Err(e) => Err((e, p)),
        Ok(c3) => Ok((c3, then, Some(other))),
    }
}

// A slice has n items, or with a rest at least n.
pub fn length_test(
    image: &[u8],
    tables: Tables,
    body: &mut [u16; BODY_WORDS],
    counts: Counts,
    p: PatId,
    n: u16,
    rest: bool,
    current: BasicBlockId,
    els: Option<BasicBlockId>,
    place: Place,
) -> Lowered
    requires { Whole image.now tables × Ready (body_of body.old) counts × Begins counts current els }
    ensures { Lowers (λ ctx. length_test_by rest image.now p.0 n ctx current els place) counts current els (body_of body.old) result (body_of body.new) }
{
    match temp(image, tables, body, counts, USIZE, current) {
        Err(e) => Err((e, p)),
        Ok((c1, l)) => {
            let full = (MirLowerError::Limit, p);
            let c2 = push_assignment(body, c1, current, l, PlaceRvalue::Len, place).ok_or(full)?;
            length_switch(image, tables, body, c2, p, l, n, rest, current, els)
        }
    }
}
