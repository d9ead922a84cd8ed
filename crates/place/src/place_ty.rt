// What a place's type can be.
// A place's type: a type of the table; a variant of an enum, behind a Downcast; a part of an array, by the type of its elements; or the type of a
// local that the lowering makes for a test.
#[derive(Clone, Copy)]
pub enum PlaceTy {
    Ty(u16),
    Variant(u16, u16),
    Part(u16),
    Bool,
    Usize,
    I128,
    // A projection does not apply.
    Inapplicable,
}
