// The numbers that stand in several words of a row.
ghost use Rattle.std.specs.Prelude.{◌≡◌, ◌+◌, ◌≤◌, length};
ghost use Rattle.mir.specs.Statements.{statement_width};
ghost use Rattle.views.specs.Views.{four_words_at};
ghost use Rattle.listing_places.specs.RowParts.{elem_at};

use place::elems::{ProjectionElem, elem_of};

// The element j of the place in a statement's row. Behind the row's end its words count as zeros, which are a Deref.
pub fn elem_at(row: &[u16], j: u16) -> ProjectionElem
    requires { length row.now ≡ statement_width }
    ensures { result ≡ elem_at row.now j }
{
    if 16 <= j {
        return ProjectionElem::Deref;
    }
    let at = 17 + 2 * (j as usize);
    elem_of((row[at] as u32) + 65536 * (row[at + 1] as u32))
}

// The number of four words, the lowest first.
pub fn four_words(row: &[u16], k: usize) -> u64
    requires { k + 4 ≤ length row.now }
    ensures { result ≡ four_words_at row.now k }
{
    let a = row[k] as u64;
    let b = row[k + 1] as u64;
    let c = row[k + 2] as u64;
    let d = row[k + 3] as u64;
    a + 65536 * b + 4294967296 * c + 281474976710656 * d
}
