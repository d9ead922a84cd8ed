// The public call `temp`, on a body in one table: every image, body and number is taken, or refused by document 01's number. Numbers 1 and 2 write nothing; any other
// refusal leaves what lies below the counts as found, and zeros above.
#![tactic(auto)]

ghost use Rattle.image.specs.Tables.{Whole};
ghost use Rattle.state.specs.State.{decode};
ghost use Rattle.lower_spec.specs.Temps.{temp};
ghost use Rattle.calls_spec.specs.Calls.{by_step};
ghost use Rattle.body_calls_spec.specs.Calls.{temp_call};
ghost use Rattle.body_calls_spec.specs.Sizes.{Sized};
ghost use Rattle.body_tables.specs.Layout.{body_of};
ghost use Rattle.calls_spec.specs.Promises.{Gives};
ghost use Rattle.body_calls_spec.specs.Answers.{temp_way};

use body_calls_spec::CallError;
use body_clearing::clear_above;
use body_opening::open;
use body_row_rules::rows::is_type_word;
use body_tables::BODY_WORDS;
use image::Tables;
use mir::{BasicBlockId, Counts};
use place::LocalId;

// The call's own step, on an image and a body that were looked at: zeros are written above the counts first, so that a new row lies among zeros.
fn temp_step(
    image: &[u8],
    tables: Tables,
    body: &mut [u16; BODY_WORDS],
    counts: Counts,
    word: u16,
    block: BasicBlockId,
) -> Result<(Counts, LocalId), CallError>
    requires { Whole image.now tables × Sized (body_of body.old) counts }
    ensures { Gives temp_way (body_of body.old) counts (by_step (temp image.now (decode (body_of body.old) counts) word block)) result (body_of body.new) }
{
    clear_above(body, counts);
    match body_temps::temp(image, tables, body, counts, word, block) {
        Ok((c1, l)) => Ok((c1, l)),
        Err(e) => {
            clear_above(body, counts);
            Err(CallError::Refused(e))
        }
    }
}

// A temporary of the type that the word says, live from the end of a block on.
pub fn temp(
    image: &[u8],
    body: &mut [u16; BODY_WORDS],
    counts: Counts,
    word: u16,
    block: BasicBlockId,
) -> Result<(Counts, LocalId), CallError>
    ensures { Gives temp_way (body_of body.old) counts (temp_call image.now (body_of body.old) counts word block) result (body_of body.new) }
{
    let tables = open(image, body, counts)?;
    if !is_type_word(tables.types.count, word) {
        return Err(CallError::BadCall);
    }
    if counts.blocks <= block.0 {
        return Err(CallError::BadCall);
    }
    temp_step(image, tables, body, counts, word, block)
}
