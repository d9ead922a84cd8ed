// The public call `pop_and_drop`, on a body in one table: every image, body and number is taken, or refused by document 01's number. Numbers 1 and 2 write nothing; any
// other refusal leaves what lies below the counts as found, and zeros above.
#![tactic(auto)]

ghost use Rattle.std.specs.Prelude.{◌<◌};
ghost use Rattle.image.specs.Tables.{Whole};
ghost use Rattle.state.specs.State.{decode};
ghost use Rattle.drop_scopes_spec.specs.Dropping.{pop_and_drop};
ghost use Rattle.drop_scopes_spec.specs.Promises.{EntriesNamed, ScopesNamed};
ghost use Rattle.calls_spec.specs.Calls.{by_step};
ghost use Rattle.body_calls_spec.specs.Calls.{pop_and_drop_call};
ghost use Rattle.body_calls_spec.specs.Sizes.{Sized};
ghost use Rattle.body_tables.specs.Layout.{body_of};
ghost use Rattle.calls_spec.specs.Promises.{Gives};
ghost use Rattle.body_calls_spec.specs.Answers.{drop_way};

use body_calls_spec::CallError;
use body_clearing::clear_above;
use body_opening::open;
use body_restoring::{block_row, put_back};
use body_tables::BODY_WORDS;
use image::Tables;
use mir::{BasicBlockId, Counts};

// The call's own step, on an image and a body that were looked at: zeros are written above the counts first, so that a new row lies among zeros.
fn pop_step(
    image: &[u8],
    tables: Tables,
    body: &mut [u16; BODY_WORDS],
    counts: Counts,
    block: BasicBlockId,
) -> Result<(Counts, BasicBlockId), CallError>
    requires whole { Whole image.now tables × Sized (body_of body.old) counts × (block.0 < counts.blocks) }
    requires entries_named { EntriesNamed (body_of body.old).entries counts × ScopesNamed (body_of body.old).scopes counts }
    ensures { Gives drop_way (body_of body.old) counts (by_step (pop_and_drop image.now (decode (body_of body.old) counts) block)) result (body_of body.new) }
{
    clear_above(body, counts);
    let row = block_row(body, block);
    match body_scopes::pop_and_drop(image, tables, body, counts, block) {
        Ok((c1, b)) => Ok((c1, b)),
        Err(e) => {
            put_back(body, block, row);
            clear_above(body, counts);
            Err(CallError::Refused(e))
        }
    }
}

// The last scope is closed, and its locals leave.
pub fn pop_and_drop(
    image: &[u8],
    body: &mut [u16; BODY_WORDS],
    counts: Counts,
    block: BasicBlockId,
) -> Result<(Counts, BasicBlockId), CallError>
    ensures { Gives drop_way (body_of body.old) counts (pop_and_drop_call image.now (body_of body.old) counts block) result (body_of body.new) }
{
    let tables = open(image, body, counts)?;
    if counts.blocks <= block.0 {
        return Err(CallError::BadCall);
    }
    pop_step(image, tables, body, counts, block)
}
