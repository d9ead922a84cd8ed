// Patterns at which a walk has nothing to do but to count the visit: they are visited where they stand, with no call of the walk.
#![tactic(auto)]

ghost use Rattle.std.specs.Prelude.{◌≡◌, true, ◌<◌};
ghost use Rattle.image.specs.Tables.{Whole, pattern_count};
ghost use Rattle.image.specs.Rows.{pat_at};
ghost use Rattle.image.specs.Patterns.{pattern_shape_holds};
ghost use Rattle.image.specs.Valid.{valid};
ghost use Rattle.pattern_idle.specs.Idle.{idle_in_check, names_constant, idle_beyond_check, nothing_to_do};

use image::kinds::{OperandKind, PatKind, PathKind};
use image::rows::{PatRow, operand_at, pat_at};
use image::{PatId, Tables};
use pattern_matching::{MatchingMode, is_check};
use pattern_tests::consts::is_literal;

// In Check: a wildcard, and a Bind that has no subpattern, b being the subpattern's word.
fn idle_in_check(kind: PatKind, b: u16) -> bool
    ensures { result ≡ idle_in_check kind b }
{
    match kind {
        PatKind::Wild => true,
        PatKind::Bind => b == 65535,
        _ => false,
    }
}

// A path that names a constant.
#[tactic(auto, unfolding(crate::specs::Idle::names_constant))]
fn names_constant(kind: PathKind) -> bool
    ensures { result ≡ names_constant kind }
{
    matches!(kind, PathKind::Constant)
}

// Beyond Check: a wildcard, and what only tests.
fn idle_beyond_check(image: &[u8], tables: Tables, kind: PatKind, row: PatRow) -> bool
    requires { Whole image.now tables × (pattern_shape_holds kind image.now row ≡ true) }
    ensures { result ≡ idle_beyond_check kind image.now row }
{
    match kind {
        PatKind::Wild => true,
        PatKind::Range => true,
        PatKind::Path => names_constant(PathKind::from(row.a)),
        PatKind::Lit => is_literal(OperandKind::from(operand_at(image, tables, row.a).kind)),
        _ => false,
    }
}

// The pattern q.
pub fn nothing_to_do(image: &[u8], tables: Tables, mode: MatchingMode, q: PatId) -> bool
    requires { (valid image.now ≡ true) × Whole image.now tables × (q.0 < pattern_count image.now) }
    ensures { result ≡ nothing_to_do image.now mode (pat_at image.now q.0) }
{
    let row = pat_at(image, tables, q);
    if row.derefs != 0 {
        return false;
    }
    if is_check(mode) {
        return idle_in_check(PatKind::from(row.kind), row.b);
    }
    idle_beyond_check(image, tables, PatKind::from(row.kind), row)
}
