// Whether all that a call on a pattern is handed names something: document 01's number 2.
#![tactic(auto)]

ghost use Rattle.std.specs.Prelude.{◌≡◌, ◌≤◌, length};
ghost use Rattle.mir.specs.Blocks.{block_words};
ghost use Rattle.handed.specs.Handed.{start_holds, binding_local_holds, bindings_hold, match_holds, self_holds};

use handed::{else_holds, place_holds};
use image::{BindingId, PatId, Tables};
use mir::blocks::is_unterminated;
use mir::{BasicBlockId, Counts};
use place::{LocalId, Place};

pub fn start_holds(blocks: &[u16], counts: Counts, current: BasicBlockId) -> bool
    requires { (length blocks.now ≡ block_words) × (counts.blocks ≤ 512) }
    ensures { result ≡ start_holds blocks.now counts current }
{
    if counts.blocks <= current.0 {
        return false;
    }
    is_unterminated(blocks, current)
}

#[tactic(auto, unfolding(handed::specs::Handed::binding_local_holds))]
fn binding_holds(counts: Counts, l: u16) -> bool
    ensures { result ≡ binding_local_holds counts l }
{
    l == 65535 || l < counts.locals
}

pub fn bindings_hold(count: u16, counts: Counts, bindings: &[u16]) -> bool
    ensures { result ≡ bindings_hold count counts bindings.now }
{
    bindings.len() == (count as usize) && bindings.iter().all(|l| binding_holds(counts, *l))
}

// All that a call of `pattern_match` is handed.
pub fn match_holds(
    tables: Tables,
    bindings: &[u16],
    blocks: &[u16],
    counts: Counts,
    p: PatId,
    current: BasicBlockId,
    els: Option<BasicBlockId>,
    place: Place,
) -> bool
    requires { (length blocks.now ≡ block_words) × (counts.blocks ≤ 512) }
    ensures { result ≡ match_holds (record { variants = tables.variants.count; patterns = tables.patterns.count; bindings = tables.bindings.count }) bindings.now blocks.now counts p.0 current els place }
{
    if tables.patterns.count <= p.0 {
        return false;
    }
    if !bindings_hold(tables.bindings.count, counts, bindings) {
        return false;
    }
    if !start_holds(blocks, counts, current) {
        return false;
    }
    if !else_holds(counts, current, els) {
        return false;
    }
    place_holds(tables.variants.count, counts, place)
}

// All that a call of `match_self_param` is handed.
pub fn self_holds(
    tables: Tables,
    bindings: &[u16],
    blocks: &[u16],
    counts: Counts,
    b: BindingId,
    current: BasicBlockId,
    l: LocalId,
) -> bool
    requires { (length blocks.now ≡ block_words) × (counts.blocks ≤ 512) }
    ensures { result ≡ self_holds (record { variants = tables.variants.count; patterns = tables.patterns.count; bindings = tables.bindings.count }) bindings.now blocks.now counts b.0 current l.0 }
{
    if !bindings_hold(tables.bindings.count, counts, bindings) {
        return false;
    }
    if tables.bindings.count <= b.0 {
        return false;
    }
    if !start_holds(blocks, counts, current) {
        return false;
    }
    l.0 < counts.locals
}
