// An else that cannot be reached.
#![tactic(auto)]

ghost use Rattle.std.specs.Prelude.{◌≡◌};
ghost use Rattle.param_shutting.specs.Shutting.{shut_answer, shut_body, Shuttable};
ghost use Rattle.body_tables.specs.Layout.{body_of};

use body_tables::BODY_WORDS;
use body_tables::blocks::set_terminator;
use mir::blocks::Terminator;
use pattern_walk_spec::Lowered;

// A parameter does not fail: the else of an answer, if there is one, becomes Unreachable.
pub fn shut(body: &mut [u16; BODY_WORDS], lowered: Lowered) -> Lowered
    requires { Shuttable lowered }
    ensures { (result ≡ shut_answer lowered) × (body_of body.new ≡ shut_body lowered (body_of body.old)) }
{
    let (c, then, other) = lowered?;
    match other {
        None => Ok((c, then, None)),
        Some(b) => {
            set_terminator(body, b, Terminator::Unreachable);
            Ok((c, then, None))
        }
    }
}
