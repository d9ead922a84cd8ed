// Places.
ghost use Rattle.std.specs.Prelude.{◌≡◌, length};
ghost use Rattle.mir.specs.Statements.{statement_width};
ghost use Rattle.views.specs.Views.{path_of};
ghost use Rattle.listing_text.specs.Listing.{elem_text, place_text};
ghost use Rattle.listing_text.specs.Writing.{Wrote};

use super::rows::elem_at;
use listing_text::numbers::{put_decimal, put_numbered};
use listing_text::pen::{Pen, put};
use place::elems::ProjectionElem;

// An element of a place.
fn put_elem(out: &mut [u8], pen: Pen, elem: ProjectionElem) -> Pen
    ensures { Wrote out.old pen (elem_text elem) result out.new }
{
    match elem {
        ProjectionElem::Deref => put(out, pen, b".deref"),
        ProjectionElem::Field(n) => put_numbered(out, pen, b".f", n),
        ProjectionElem::Index(n) => put_numbered(out, pen, b".i", n),
        ProjectionElem::IndexFromEnd(n) => put_numbered(out, pen, b".e", n),
        ProjectionElem::Subslice(a, b) => {
            let begun = put_numbered(out, pen, b".s", a);
            put_numbered(out, begun, b"-", b)
        }
        ProjectionElem::Downcast(v) => put_numbered(out, pen, b".v", v),
        ProjectionElem::Unknown => put(out, pen, b""),
    }
}

// The place in a statement's row.
pub fn put_place(out: &mut [u8], pen: Pen, row: &[u16]) -> Pen
    requires { length row.now ≡ statement_width }
    ensures { Wrote out.old pen (place_text (path_of row.now)) result out.new }
{
    let count = row[16];
    let mut written = put_decimal(out, pen, row[15]);
    for j in 0..count {
        written = put_elem(out, written, elem_at(row, j));
    }
    written
}
