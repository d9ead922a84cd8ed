// By which test a range's end is tested.
#![tactic(auto)]

ghost use Rattle.std.specs.Prelude.{◌≡◌};
ghost use Rattle.image.specs.Types.{is_set};
ghost use Rattle.pattern_matching.specs.Patterns.{end_op};

use mir::rvalues::BinOp;

// The test of a range's end, by the word that is 1 for a half-open range.
pub fn end_op(half_open: u16) -> BinOp
    ensures { result ≡ end_op (is_set half_open) }
{
    if half_open == 1 {
        return BinOp::Gt;
    }
    BinOp::Ge
}
