// The blocks of a test, and its end: a new local is what an operator makes of two operands, and the block goes on by it.
#![tactic(auto)]

ghost use Rattle.std.specs.Prelude.{◌≡◌, ◌<◌, ◌≤◌, length};
ghost use Rattle.image.specs.Tables.{Whole};
ghost use Rattle.pattern_walk_spec.specs.Answers.{Begins, Lowers};
ghost use Rattle.pattern_switching.specs.Switching.{else_made, compare_step, then_switch, Steps};
ghost use Rattle.body_tables.specs.Layout.{body_of};
ghost use Rattle.state.specs.Promises.{Ready};

use body_assignments::push_binary_assignment;
use body_tables::BODY_WORDS;
use body_tables::blocks::set_terminator;
use body_temps::temp;
use image::{PatId, Tables};
use mir::blocks::{Terminator, new_basic_block};
use mir::locals::BOOL;
use mir::rvalues::{BinOp, Left};
use mir::{BasicBlockId, Counts};
use pattern_walk_spec::Lowered;
use place::{LocalId, Place};
use refusals::MirLowerError;

// The else that there is, or a new block. None where the limit is passed.
pub fn else_block(counts: Counts, els: Option<BasicBlockId>) -> Option<(Counts, BasicBlockId)>
    ensures { result ≡ else_made counts els }
{
    match els {
        Some(b) => Some((counts, b)),
        None => new_basic_block(counts),
    }
}

// A new local of type bool is what an operator makes of two operands, and the block goes on by it.
pub fn compare(
    image: &[u8],
    tables: Tables,
    body: &mut [u16; BODY_WORDS],
    counts: Counts,
    op: BinOp,
    left: Left,
    place: Place,
    current: BasicBlockId,
    then: BasicBlockId,
    other: BasicBlockId,
) -> Result<Counts, MirLowerError>
    requires { Whole image.now tables × Ready (body_of body.old) counts × (current.0 < counts.blocks) }
    ensures { Steps (λ st. compare_step image.now op left place st current then other) counts current (body_of body.old) result (body_of body.new) }
{
    let (c1, l) = temp(image, tables, body, counts, BOOL, current)?;
    let c2 = push_binary_assignment(body, c1, current, l, op, left, place).ok_or(
        MirLowerError::Limit,
    )?;
    set_terminator(body, current, Terminator::Switch(l, 1, 0, then, other));
    Ok(c2)
}

// By the value of the local l the block goes on: the block for the value that is tested is made before an else.
pub fn then_switch(
    body: &mut [u16; BODY_WORDS],
    counts: Counts,
    p: PatId,
    l: LocalId,
    low: u64,
    high: u64,
    current: BasicBlockId,
    els: Option<BasicBlockId>,
) -> Lowered
    requires { (counts.blocks ≤ 512) × Begins counts current els }
    ensures { Lowers (λ ctx. then_switch p.0 l low high ctx current els) counts current els (body_of body.old) result (body_of body.new) }
{
    let (c1, then) = new_basic_block(counts).ok_or((MirLowerError::Limit, p))?;
    let (c2, other) = else_block(c1, els).ok_or((MirLowerError::Limit, p))?;
    let switch = Terminator::Switch(l, low, high, then, other);
    set_terminator(body, current, switch);
    Ok((c2, then, Some(other)))
}
