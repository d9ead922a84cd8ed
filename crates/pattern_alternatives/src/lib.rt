// What the walk over an Or's alternatives decides by value.
#![tactic(auto)]

ghost use Rattle.std.specs.Prelude.{◌≡◌};
ghost use Rattle.pattern_alternatives.specs.Alternatives.{with_else};

use mir::BasicBlockId;
use pattern_walk_spec::Lowered;

// The answer of a walk, with the else of another: an alternative that is walked again beyond Check keeps the else of its test.
pub fn with_else(answer: Lowered, other: Option<BasicBlockId>) -> Lowered
    ensures { result ≡ with_else answer other }
{
    let (c, then, _) = answer?;
    Ok((c, then, other))
}
