// Where the list of a pattern starts.
#![tactic(auto)]

ghost use Rattle.std.specs.Prelude.{◌≡◌, cond, eqb};

// Where a list of so many words starts: "empty lists' starts 0".
pub fn list_start(next: u16, many: u16) -> u16
    ensures { result ≡ cond (eqb many 0) 0 next }
{
    if many == 0 {
        return 0;
    }
    next
}
