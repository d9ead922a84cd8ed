// The public call `pop_assume_dropped`, on a body in one table: every image, body and number is taken, or refused by document 01's number. Numbers 1 and 2 write nothing; any
// other refusal leaves what lies below the counts as found, and zeros above.
#![tactic(auto)]

ghost use Rattle.state.specs.State.{decode};
ghost use Rattle.drop_scopes_spec.specs.Dropping.{pop_assume_dropped};
ghost use Rattle.drop_scopes_spec.specs.Promises.{ScopesNamed};
ghost use Rattle.calls_spec.specs.Calls.{by_step};
ghost use Rattle.body_calls_spec.specs.Calls.{pop_assume_dropped_call};
ghost use Rattle.body_calls_spec.specs.Sizes.{Sized};
ghost use Rattle.body_tables.specs.Layout.{body_of};
ghost use Rattle.calls_spec.specs.Promises.{Gives};
ghost use Rattle.body_calls_spec.specs.Answers.{scope_way};

use body_calls_spec::CallError;
use body_clearing::clear_above;
use body_opening::open;
use body_tables::BODY_WORDS;
use mir::Counts;

// The call's own step, on an image and a body that were looked at: zeros are written above the counts first, so that a new row lies among zeros.
fn pop_step(body: &mut [u16; BODY_WORDS], counts: Counts) -> Result<Counts, CallError>
    requires { Sized (body_of body.old) counts × ScopesNamed (body_of body.old).scopes counts }
    ensures { Gives scope_way (body_of body.old) counts (by_step (pop_assume_dropped (decode (body_of body.old) counts))) result (body_of body.new) }
{
    clear_above(body, counts);
    match body_scopes::pop_assume_dropped(body, counts) {
        Ok(c1) => Ok(c1),
        Err(e) => Err(CallError::Refused(e)),
    }
}

// The last scope is closed, its locals having left before.
pub fn pop_assume_dropped(
    image: &[u8],
    body: &mut [u16; BODY_WORDS],
    counts: Counts,
) -> Result<Counts, CallError>
    ensures { Gives scope_way (body_of body.old) counts (pop_assume_dropped_call image.now (body_of body.old) counts) result (body_of body.new) }
{
    open(image, body, counts)?;
    pop_step(body, counts)
}
