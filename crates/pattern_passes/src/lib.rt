// The passes of `pattern_match`: Check, and then Bind.
#![tactic(auto)]

ghost use Rattle.std.specs.Prelude.{◌<◌};
ghost use Rattle.image.specs.Tables.{pattern_count};
ghost use Rattle.image.specs.Tree.{tree};
ghost use Rattle.pattern_matching.specs.Patterns.{pattern_match};
ghost use Rattle.pattern_walk_spec.specs.Answers.{Walks};
ghost use Rattle.pattern_walk_laws.specs.Walk.{Walkable};
ghost use Rattle.body_tables.specs.Layout.{body_of};

use body_tables::BODY_WORDS;
use image::{PatId, Tables};
use mir::{BasicBlockId, Counts};
use pattern_entering::VISIT_WORDS;
use pattern_matching::MatchingMode;
use pattern_walk::pattern_match_inner;
use pattern_walk_spec::Lowered;
use place::Place;

// The pattern is walked in Check, and then in Bind with the else that Check left.
pub fn check_and_bind(
    image: &[u8],
    tables: Tables,
    bindings: &[u16],
    body: &mut [u16; BODY_WORDS],
    visits: &mut [u16; VISIT_WORDS],
    counts: Counts,
    p: PatId,
    current: BasicBlockId,
    els: Option<BasicBlockId>,
    place: Place,
) -> Lowered
    requires { Walkable image.now tables bindings.now (body_of body.old) counts current els place × (p.0 < pattern_count image.now) }
    ensures { Walks (λ ctx. pattern_match image.now bindings.now (tree image.now p.0) ctx current els place) counts current els (body_of body.old) visits.old result (body_of body.new) visits.new }
{
    let (c1, then, other) = pattern_match_inner(
        image,
        tables,
        bindings,
        body,
        visits,
        counts,
        MatchingMode::Check,
        p,
        current,
        els,
        place,
    )?;
    pattern_match_inner(
        image,
        tables,
        bindings,
        body,
        visits,
        c1,
        MatchingMode::Bind,
        p,
        then,
        other,
        place,
    )
}
