// A pattern is entered: it is visited once more, and its derefs are appended to the place before its kind is looked at. In Check a Bind does what its subpattern does, so
// the walk goes down to that at once.
ghost use Rattle.std.specs.Prelude.{◌≡◌, true, ◌<◌};
ghost use Rattle.image.specs.Tables.{Whole, pattern_count};
ghost use Rattle.image.specs.Valid.{valid};
ghost use Rattle.pattern_walk_laws.specs.Walk.{passes_on, Enters};

use image::kinds::PatKind;
use image::rows::{PatRow, pat_at};
use image::{PatId, Tables};
use pattern_entering::{VISIT_WORDS, deref_place, visit};
use pattern_matching::{MatchingMode, is_check};
use pattern_parts::bindings::is_bind;
use place::Place;

// The pattern at which the walk goes on by its kind, and the place behind its derefs; or there is no room for these.
#[derive(Clone, Copy)]
pub struct Entered {
    pub ok: bool,
    pub p: PatId,
    pub place: Place,
}

// In Check a Bind that has a subpattern does what the subpattern does.
fn passes_on(mode: MatchingMode, row: PatRow) -> bool
    ensures { result ≡ passes_on mode row }
{
    if !is_check(mode) {
        return false;
    }
    if row.b == 65535 {
        return false;
    }
    is_bind(PatKind::from(row.kind))
}

// The pattern p is entered at a place, and in Check the subpatterns of Binds from there on.
pub fn enter(
    image: &[u8],
    tables: Tables,
    visits: &mut [u16; VISIT_WORDS],
    mode: MatchingMode,
    p: PatId,
    place: Place,
) -> Entered
    requires { (valid image.now ≡ true) × Whole image.now tables × (p.0 < pattern_count image.now) }
    ensures { Enters image.now mode p place visits.old result.ok result.p result.place visits.new }
{
    let mut q = p;
    let mut here = place;
    loop {
        visit(visits, q);
        let row = pat_at(image, tables, q);
        if row.derefs != 0 {
            let behind = deref_place(here, row.derefs);
            let to = behind.place;
            if !behind.ok {
                return Entered {
                    ok: false,
                    p: q,
                    place: to,
                };
            }
            here = to;
        }
        if !passes_on(mode, row) {
            return Entered {
                ok: true,
                p: q,
                place: here,
            };
        }
        q = PatId(row.b);
    }
}
