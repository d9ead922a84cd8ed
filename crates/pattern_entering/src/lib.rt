// A pattern is entered: it is visited once more, and its derefs are appended to the place.
#![tactic(auto)]

ghost use Rattle.std.specs.Prelude.{◌≡◌, ◌<◌, length, get_or, set};
ghost use Rattle.pattern_entering.specs.Entering.{one_more, projected_result, derefs_of};

use image::PatId;
use place::elems::ProjectionElem;
use place::{Place, Projected, project};

// The words of the visits' table: one for each pattern that an image may have.
pub const VISIT_WORDS: usize = 512;

// A pattern is visited once more; a word of the table holds at most 65535.
pub fn visit(visits: &mut [u16], p: PatId)
    requires { (length visits.old ≡ 512) × (p.0 < 512) }
    ensures { visits.new ≡ set visits.old p.0 (one_more (get_or visits.old p.0 0)) }
{
    let at = p.0 as usize;
    let n = visits[at];
    if n < 65535 {
        visits[at] = n + 1;
    }
}

// The place so many derefs on.
pub fn deref_place(place: Place, derefs: u16) -> Projected
    ensures { projected_result result ≡ derefs_of place derefs }
{
    let mut here = place;
    for _ in 0..derefs {
        let onward = project(here, ProjectionElem::Deref);
        if !onward.ok {
            return onward;
        }
        here = onward.place;
    }
    Projected {
        ok: true,
        place: here,
    }
}
