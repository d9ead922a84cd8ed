// The types of a sheet as patterns meet them: its rows, and the answers about references that are crossed, the fields of a type, and what each part
// of a node is read at. Every number is taken: a sheet that keeps its rules is not asked for.
#![tactic(auto)]

pub mod sheet; // sheet.rt: the rows of a sheet

// A type behind so many references, and the default binding mode there: 0 by value, 1 by reference, 2 by mutable reference.
#[derive(Clone, Copy)]
pub struct CrossedType {
    pub ty: u16,
    pub derefs: u16,
    pub mode: u16,
}

// The types of fields: so many list words from a start.
#[derive(Clone, Copy)]
pub struct FieldRun {
    pub start: u16,
    pub count: u16,
}

// How the parts of a node are read, by its kind: 0 not at all; 1 as the type `a`; 2 as the target of `a`, behind `&mut` where `b` is 1; 3 as
// arguments of `b` fields from `a`, of which `c` stand before the rest; 4 as items of `a`, of which `c` stand before the rest; 5 as fields of the
// variant `b` of `a`; 6 as the field `c` of `b` fields from `a`. `many` is how many there are.
#[derive(Clone, Copy)]
pub struct PartsRow {
    pub kind: u16,
    pub a: u16,
    pub b: u16,
    pub c: u16,
    pub mode: u16,
    pub many: u16,
}

// What a part is read at: a type and the default mode; the rest of a slice, with its type, how many other items there are, and the mode; a field
// of a record, with the type, the variant and the mode; no part of its parent's type; or inside what is refused already.
#[derive(Clone, Copy)]
pub enum PartContext {
    Typed(u16, u16),
    RestAmong(u16, u16, u16),
    FieldAt(u16, u16, u16),
    Partless,
    Unseen,
}
