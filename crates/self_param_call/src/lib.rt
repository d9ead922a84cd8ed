// The public call that fills a binding with a copy of a local, self's: every image, body and number is taken, or refused by document 01's number. Numbers 1 and 2 write
// nothing; any other refusal leaves what lies below the counts as found, and zeros above.
#![tactic(auto)]

ghost use Rattle.std.specs.Prelude.{◌<◌, length};
ghost use Rattle.refusals.specs.Refusals.{no_pattern};
ghost use Rattle.image.specs.declared.kinds.BindingMode.{BindingMode};
ghost use Rattle.body_calls_spec.specs.Sizes.{Sized};
ghost use Rattle.pattern_matching.specs.Walking.{local_place};
ghost use Rattle.pattern_matching.specs.Tests.{pattern_match_binding};
ghost use Rattle.calls_spec.specs.Promises.{Gives};
ghost use Rattle.pattern_walk_spec.specs.Calls.{by_walk, start_ctx};
ghost use Rattle.pattern_calls_spec.specs.Calls.{match_way, SelfGives};
ghost use Rattle.body_tables.specs.Layout.{body_of};

use body_calls_spec::PatternCallError;
use body_clearing::clear_above;
use body_handed::self_holds;
use body_opening::open;
use body_restoring::{block_row, put_back};
use body_tables::BODY_WORDS;
use image::kinds::BindingMode;
use image::{BindingId, PatId};
use mir::{BasicBlockId, Counts};
use pattern_parts::bindings::pattern_match_binding;
use pattern_walk_spec::Lowered;
use place::{LocalId, Place};

// The call's own step, on a body and numbers that were looked at: zeros are written above the counts first, so that a new row lies among zeros.
fn self_step(
    bindings: &[u16],
    body: &mut [u16; BODY_WORDS],
    counts: Counts,
    b: BindingId,
    current: BasicBlockId,
    l: LocalId,
) -> Result<(Counts, BasicBlockId, Option<BasicBlockId>), PatternCallError>
    requires { Sized (body_of body.old) counts × (b.0 < length bindings.now) × (current.0 < counts.blocks) }
    ensures { Gives match_way (body_of body.old) counts (by_walk (pattern_match_binding bindings.now no_pattern no_pattern b.0 BindingMode.Value (start_ctx (body_of body.old) counts) current None (local_place l))) result (body_of body.new) }
{
    clear_above(body, counts);
    let row = block_row(body, current);
    let whole = Place {
        local: l,
        len: 0,
        elems: [0u32; 16],
    };
    match pattern_match_binding(
        bindings,
        body,
        counts,
        PatId(65535),
        PatId(65535),
        b,
        BindingMode::Value,
        current,
        None,
        whole,
    ) {
        Ok((c, then, other)) => Ok((c, then, other)),
        Err((e, q)) => {
            put_back(body, current, row);
            clear_above(body, counts);
            Err(PatternCallError::Refused(e, q))
        }
    }
}

// The binding b is filled with a copy of the local l at the end of the block `current`.
// The answer: the counts, the block that goes on, and no block for a mismatch: self always matches.
pub fn match_self_param(
    image: &[u8],
    bindings: &[u16],
    body: &mut [u16; BODY_WORDS],
    counts: Counts,
    b: BindingId,
    current: BasicBlockId,
    l: LocalId,
) -> Result<(Counts, BasicBlockId, Option<BasicBlockId>), PatternCallError>
    ensures { SelfGives image.now bindings.now counts b.0 current l (body_of body.old) result (body_of body.new) }
{
    let tables = open(image, body, counts)?;
    if !self_holds(tables, bindings, body, counts, b, current, l) {
        return Err(PatternCallError::BadCall);
    }
    self_step(bindings, body, counts, b, current, l)
}
