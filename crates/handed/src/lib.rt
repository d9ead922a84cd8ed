// Whether an else, a place and two blocks that a call is handed name something: document 01's number 2.
#![tactic(auto)]

ghost use Rattle.std.specs.Prelude.{◌≡◌};
ghost use Rattle.handed.specs.Handed.{else_holds, place_holds, is_block_or_none, merge_holds};

use body_row_rules::rows::elem_holds;
use mir::{BasicBlockId, Counts};
use place::Place;
use place::elems::elem_of;

pub fn else_holds(counts: Counts, current: BasicBlockId, els: Option<BasicBlockId>) -> bool
    ensures { result ≡ else_holds counts current els }
{
    match els {
        None => true,
        Some(b) => {
            if counts.blocks <= b.0 {
                return false;
            }
            b.0 != current.0
        }
    }
}

pub fn place_holds(variants: u16, counts: Counts, place: Place) -> bool
    ensures { result ≡ place_holds variants counts place }
{
    if counts.locals <= place.local.0 || 16 < place.len {
        return false;
    }
    let elems = &place.elems[..place.len as usize];
    elems
        .iter()
        .all(|elem| elem_holds(variants, elem_of(*elem)))
}

// A block that there is, where there is one.
fn is_block_or_none(counts: Counts, b: Option<BasicBlockId>) -> bool
    ensures { result ≡ is_block_or_none counts b }
{
    match b {
        None => true,
        Some(block) => block.0 < counts.blocks,
    }
}

// All that a call of `merge_blocks` is handed.
pub fn merge_holds(counts: Counts, x: Option<BasicBlockId>, y: Option<BasicBlockId>) -> bool
    ensures { result ≡ merge_holds counts x y }
{
    if !is_block_or_none(counts, x) {
        return false;
    }
    is_block_or_none(counts, y)
}
