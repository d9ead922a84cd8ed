// Whether what a call on a pattern is handed names something, beside a body in one table: document 01's number 2. Each test is handed the table of the blocks.
#![tactic(auto)]

ghost use Rattle.std.specs.Prelude.{◌≡◌, ◌≤◌, length};
ghost use Rattle.handed.specs.Handed.{start_holds, match_holds, self_holds};
ghost use Rattle.body_tables.specs.Layout.{body_words, body_of};
ghost use Rattle.body_handed.specs.Naming.{named_by};

use body_tables::STATEMENTS;
use image::{BindingId, PatId, Tables};
use mir::{BasicBlockId, Counts};
use place::{LocalId, Place};

// A block that there is, and that is open.
pub fn start_holds(body: &[u16], counts: Counts, current: BasicBlockId) -> bool
    requires { (length body.now ≡ body_words) × (counts.blocks ≤ 512) }
    ensures { result ≡ start_holds (body_of body.now).blocks counts current }
{
    handed_tests::start_holds(&body[0..STATEMENTS], counts, current)
}

// All that a call of `pattern_match` is handed.
pub fn match_holds(
    tables: Tables,
    bindings: &[u16],
    body: &[u16],
    counts: Counts,
    p: PatId,
    current: BasicBlockId,
    els: Option<BasicBlockId>,
    place: Place,
) -> bool
    requires { (length body.now ≡ body_words) × (counts.blocks ≤ 512) }
    ensures { result ≡ match_holds (named_by tables) bindings.now (body_of body.now).blocks counts p.0 current els place }
{
    handed_tests::match_holds(
        tables,
        bindings,
        &body[0..STATEMENTS],
        counts,
        p,
        current,
        els,
        place,
    )
}

// All that a call of `match_self_param` is handed.
pub fn self_holds(
    tables: Tables,
    bindings: &[u16],
    body: &[u16],
    counts: Counts,
    b: BindingId,
    current: BasicBlockId,
    l: LocalId,
) -> bool
    requires { (length body.now ≡ body_words) × (counts.blocks ≤ 512) }
    ensures { result ≡ self_holds (named_by tables) bindings.now (body_of body.now).blocks counts b.0 current l.0 }
{
    handed_tests::self_holds(
        tables,
        bindings,
        &body[0..STATEMENTS],
        counts,
        b,
        current,
        l,
    )
}
