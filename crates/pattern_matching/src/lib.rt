// The lowering of patterns: its definitions stand in specs/.
#![tactic(auto)]

ghost use Rattle.std.specs.Prelude.{◌≡◌};
ghost use Rattle.pattern_matching.specs.Modes.{is_check};

// What a walk over a pattern does: `Check` tests whether the pattern matches, `Bind` takes that for granted and fills the bindings, and `Assign` takes it
// for granted and assigns to locals that there are.
#[derive(Clone, Copy)]
pub enum MatchingMode {
    Check,
    Bind,
    Assign,
}

// A walk in Check, the one that tests.
#[tactic(auto, unfolding(crate::specs::Modes::is_check))]
pub fn is_check(mode: MatchingMode) -> bool
    ensures { result ≡ is_check mode }
{
    matches!(mode, MatchingMode::Check)
}
