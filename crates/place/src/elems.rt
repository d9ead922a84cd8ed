// The elements of a projection. A word holds an element: its kind is the remainder by 8, the number a stands from bit 16 on, and b, of a subslice,
// from bit 3 on.
ghost use Rattle.std.specs.Prelude.{◌≡◌};
ghost use Rattle.place.specs.Elems.{Fits, elem_of, word_of};

#[derive(Clone, Copy)]
pub enum ProjectionElem {
    // What a reference refers to.
    Deref,
    // A field, by its number.
    Field(u16),
    // An element, counted from the front with 0 as the first.
    Index(u16),
    // An element, counted from the end with 0 as the last.
    IndexFromEnd(u16),
    // What is left without so many elements in front and so many at the end.
    Subslice(u16, u16),
    // A variant of an enum, by its number in the table.
    Downcast(u16),
    // A word of no kind.
    Unknown,
}

// The element of a word.
pub fn elem_of(word: u32) -> ProjectionElem
    ensures { result ≡ elem_of word }
{
    let a = (word / 65536) as u16;
    let b = (word / 8 % 8192) as u16;
    let kind = word % 8;
    match kind {
        0 => ProjectionElem::Deref,
        1 => ProjectionElem::Field(a),
        2 => ProjectionElem::Index(a),
        3 => ProjectionElem::IndexFromEnd(a),
        4 => ProjectionElem::Subslice(a, b),
        5 => ProjectionElem::Downcast(a),
        _ => ProjectionElem::Unknown,
    }
}

// The word of an element. A subslice leaves out fewer than 8,192 elements at the end.
pub fn word_of(elem: ProjectionElem) -> u32
    requires { Fits elem }
    ensures { result ≡ word_of elem }
{
    match elem {
        ProjectionElem::Deref => 0,
        ProjectionElem::Field(a) => 1 + 65536 * (a as u32),
        ProjectionElem::Index(a) => 2 + 65536 * (a as u32),
        ProjectionElem::IndexFromEnd(a) => 3 + 65536 * (a as u32),
        ProjectionElem::Subslice(a, b) => 4 + 8 * (b as u32) + 65536 * (a as u32),
        ProjectionElem::Downcast(a) => 5 + 65536 * (a as u32),
        ProjectionElem::Unknown => 6,
    }
}
