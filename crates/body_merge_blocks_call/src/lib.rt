// The public call `merge_blocks`, on a body in one table: every image, body and number is taken, or refused by document 01's number. Numbers 1 and 2 write nothing; any
// other refusal leaves what lies below the counts as found, and zeros above.
#![tactic(auto)]

ghost use Rattle.state.specs.State.{decode};
ghost use Rattle.lower_spec.specs.Merging.{merge_blocks};
ghost use Rattle.lower_spec.specs.Promises.{Within};
ghost use Rattle.calls_spec.specs.Calls.{by_step};
ghost use Rattle.body_calls_spec.specs.Calls.{merge_blocks_call};
ghost use Rattle.body_calls_spec.specs.Sizes.{Sized};
ghost use Rattle.body_tables.specs.Layout.{body_of};
ghost use Rattle.calls_spec.specs.Promises.{Gives};
ghost use Rattle.body_calls_spec.specs.Answers.{merge_way};

use body_calls_spec::CallError;
use body_clearing::clear_above;
use body_opening::open;
use body_tables::BODY_WORDS;
use handed::merge_holds;
use mir::{BasicBlockId, Counts};

// The call's own step, on an image and a body that were looked at: zeros are written above the counts first, so that a new row lies among zeros.
fn merge_step(
    body: &mut [u16; BODY_WORDS],
    counts: Counts,
    x: Option<BasicBlockId>,
    y: Option<BasicBlockId>,
) -> Result<(Counts, Option<BasicBlockId>), CallError>
    requires { Sized (body_of body.old) counts × Within counts x × Within counts y }
    ensures { Gives (merge_way x y) (body_of body.old) counts (by_step (merge_blocks (decode (body_of body.old) counts) x y)) result (body_of body.new) }
{
    clear_above(body, counts);
    match body_merging::merge_blocks(body, counts, x, y) {
        Ok((c1, b)) => Ok((c1, b)),
        Err(e) => Err(CallError::Refused(e)),
    }
}

// Two blocks go on at a new one; where there is but one, or none, nothing is made.
pub fn merge_blocks(
    image: &[u8],
    body: &mut [u16; BODY_WORDS],
    counts: Counts,
    x: Option<BasicBlockId>,
    y: Option<BasicBlockId>,
) -> Result<(Counts, Option<BasicBlockId>), CallError>
    ensures { Gives (merge_way x y) (body_of body.old) counts (merge_blocks_call image.now (body_of body.old) counts x y) result (body_of body.new) }
{
    open(image, body, counts)?;
    if !merge_holds(counts, x, y) {
        return Err(CallError::BadCall);
    }
    merge_step(body, counts, x, y)
}
