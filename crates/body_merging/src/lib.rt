// Two ways into one block, on a body in one table: nothing is changed but the terminators of the blocks that were handed in.
#![tactic(auto)]

ghost use Rattle.std.specs.Prelude.{◌<◌, ◌≤◌};
ghost use Rattle.lower_spec.specs.Promises.{Within};
ghost use Rattle.body_tables.specs.Layout.{body_of};
ghost use Rattle.body_merging.specs.Promises.{Merges};

use body_tables::BODY_WORDS;
use body_tables::blocks::set_goto;
use mir::blocks::new_basic_block;
use mir::{BasicBlockId, Counts};
use refusals::MirLowerError;

// Two blocks go on at a new one.
fn merge_two(
    body: &mut [u16; BODY_WORDS],
    counts: Counts,
    a: BasicBlockId,
    b: BasicBlockId,
) -> Result<(Counts, Option<BasicBlockId>), MirLowerError>
    requires { (counts.blocks ≤ 512) × (a.0 < counts.blocks) × (b.0 < counts.blocks) }
    ensures { Merges counts (Some a) (Some b) (body_of body.old) result (body_of body.new) }
{
    let (c1, m) = new_basic_block(counts).ok_or(MirLowerError::Limit)?;
    set_goto(body, a, m);
    set_goto(body, b, m);
    Ok((c1, Some(m)))
}

// Both go on at a new block; where there is but one, or none, nothing is made.
pub fn merge_blocks(
    body: &mut [u16; BODY_WORDS],
    counts: Counts,
    x: Option<BasicBlockId>,
    y: Option<BasicBlockId>,
) -> Result<(Counts, Option<BasicBlockId>), MirLowerError>
    requires { (counts.blocks ≤ 512) × Within counts x × Within counts y }
    ensures { Merges counts x y (body_of body.old) result (body_of body.new) }
{
    match x {
        None => Ok((counts, y)),
        Some(a) => match y {
            None => Ok((counts, Some(a))),
            Some(b) => merge_two(body, counts, a, b),
        },
    }
}
