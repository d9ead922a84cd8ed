// Places: a local, and the way from it to a part of its value.
#![tactic(auto)]

pub mod elems; // elems.rt: the elements of a projection, and the words that hold them
pub mod place_ty; // place_ty.rt: what a place's type can be

ghost use Rattle.std.specs.Prelude.{◌≡◌};
ghost use Rattle.place.specs.Elems.{Fits};
ghost use Rattle.place.specs.Places.{Projects};

use elems::{ProjectionElem, word_of};

// A local's number.
#[derive(Clone, Copy)]
pub struct LocalId(pub u16);

// A local, and the words of the elements that lead on from it: `len` of them.
#[derive(Clone, Copy)]
pub struct Place {
    pub local: LocalId,
    pub len: u16,
    pub elems: [u32; 16],
}

// A place that leads one element on; or there was no room for the element.
#[derive(Clone, Copy)]
pub struct Projected {
    pub ok: bool,
    pub place: Place,
}

// The place one element on. A place has at most 16.
pub fn project(place: Place, elem: ProjectionElem) -> Projected
    requires { Fits elem }
    ensures { Projects place elem result }
{
    let len = place.len;
    if 16 <= len {
        return Projected {
            ok: false,
            place: place,
        };
    }
    let at = len as usize;
    let mut next = place;
    next.elems[at] = word_of(elem);
    next.len = len + 1;
    Projected {
        ok: true,
        place: next,
    }
}
