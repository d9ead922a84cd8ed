// The public call `pattern_match`, on a body in one table: every image, body and number is taken, or refused by document 01's number. Numbers 1 and 2 write nothing; any
// other refusal leaves what lies below the counts as found, and zeros above.
#![tactic(auto)]

ghost use Rattle.std.specs.Prelude.{◌≡◌, true};
ghost use Rattle.image.specs.Tree.{tree};
ghost use Rattle.body_calls_spec.specs.Sizes.{Taken};
ghost use Rattle.pattern_matching.specs.Patterns.{pattern_match};
ghost use Rattle.handed.specs.Handed.{match_holds};
ghost use Rattle.pattern_walk_spec.specs.Calls.{by_walk, start_ctx, Visits};
ghost use Rattle.pattern_calls_spec.specs.Calls.{match_way, match_ctx, named_in, MatchGives};
ghost use Rattle.body_tables.specs.Layout.{body_of};

use body_calls_spec::PatternCallError;
use body_clearing::clear_above;
use body_handed::match_holds;
use body_opening::open;
use body_restoring::{block_row, put_back};
use body_tables::BODY_WORDS;
use image::{PatId, Tables};
use mir::{BasicBlockId, Counts};
use pattern_entering::VISIT_WORDS;
use pattern_passes::check_and_bind;
use pattern_walk_spec::Lowered;
use place::Place;
use row_tables::clear_from;

// The call's own step, on an image, a body and numbers that were looked at: zeros are written above the counts first, so that a new row lies among zeros.
fn match_step(
    image: &[u8],
    tables: Tables,
    bindings: &[u16],
    body: &mut [u16; BODY_WORDS],
    visits: &mut [u16; VISIT_WORDS],
    counts: Counts,
    p: PatId,
    current: BasicBlockId,
    els: Option<BasicBlockId>,
    place: Place,
) -> Result<(Counts, BasicBlockId, Option<BasicBlockId>), PatternCallError>
    requires { Taken image.now tables (body_of body.old) counts × (match_holds (named_in image.now) bindings.now (body_of body.old).blocks counts p.0 current els place ≡ true) }
    ensures { Visits match_way match_ctx (body_of body.old) visits.old counts (by_walk (pattern_match image.now bindings.now (tree image.now p.0) (start_ctx (body_of body.old) counts) current els place)) result (body_of body.new) visits.new }
{
    let row = block_row(body, current);
    clear_above(body, counts);
    clear_from(visits, 0);
    match check_and_bind(
        image, tables, bindings, body, visits, counts, p, current, els, place,
    ) {
        Ok((c, then, other)) => Ok((c, then, other)),
        Err((e, q)) => {
            put_back(body, current, row);
            clear_above(body, counts);
            clear_from(visits, 0);
            Err(PatternCallError::Refused(e, q))
        }
    }
}

// The pattern p, tested and then bound from the block `current` on, against what lies at a place. `visits` counts how often each pattern was visited.
// The answer: the counts, the block where a match goes on, and the one where a mismatch does.
pub fn pattern_match(
    image: &[u8],
    bindings: &[u16],
    body: &mut [u16; BODY_WORDS],
    visits: &mut [u16; VISIT_WORDS],
    counts: Counts,
    p: PatId,
    current: BasicBlockId,
    els: Option<BasicBlockId>,
    place: Place,
) -> Result<(Counts, BasicBlockId, Option<BasicBlockId>), PatternCallError>
    ensures { MatchGives image.now bindings.now counts p.0 current els place (body_of body.old) visits.old result (body_of body.new) visits.new }
{
    let tables = open(image, body, counts)?;
    if !match_holds(tables, bindings, body, counts, p, current, els, place) {
        return Err(PatternCallError::BadCall);
    }
    match_step(
        image, tables, bindings, body, visits, counts, p, current, els, place,
    )
}
