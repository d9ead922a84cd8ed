// The numbers of the parameters' locals.
ghost use Rattle.std.specs.Prelude.{◌≡◌, ◌+◌, ◌<◌};
ghost use Rattle.params_spec.specs.Params.{self_count};

use body_calls_spec::PatternCallError;
use image::BindingId;
use mir::{BasicBlockId, Counts};
use place::LocalId;

// How many locals self has.
pub fn self_count(receiver: Option<(BindingId, u16)>) -> u16
    ensures { result ≡ self_count receiver }
{
    match receiver {
        None => 0,
        Some(_) => 1,
    }
}

// The local of the parameter behind one whose local is l.
pub fn next_local(l: LocalId) -> LocalId
    requires { l.0 < 512 }
    ensures { result ≡ record { 0 = l.0 + 1 } }
{
    LocalId(l.0 + 1)
}

// The answer of a call whose parameters are lowered: the first parameter's local, self's or not, is the next one when the call comes, the counts being `before` then.
pub fn lowered_answer(
    before: Counts,
    counts: Counts,
    then: BasicBlockId,
) -> Result<(Counts, BasicBlockId, LocalId), PatternCallError>
    ensures { result ≡ Ok (counts, then, record { 0 = before.locals }) }
{
    Ok((counts, then, LocalId(before.locals)))
}
