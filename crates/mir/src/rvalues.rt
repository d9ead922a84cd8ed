// What the statements of the listing hold: constants, what is made of a place, and operators. mir_statements stores their rows.
use place::LocalId;

// A constant: its count of bytes, the word of its type, where a string's bytes lie in the data, and the 16 bytes as two halves.
#[derive(Clone, Copy)]
pub struct Constant {
    pub count: u16,
    pub ty: u16,
    pub offset: u16,
    pub low: u64,
    pub high: u64,
}

// What is made of a place.
#[derive(Clone, Copy)]
pub enum PlaceRvalue {
    Copy,
    Ref,
    Mut,
    Len,
    Discr,
}

#[derive(Clone, Copy)]
pub enum BinOp {
    Eq,
    Le,
    Ge,
    Gt,
}

// The left operand of an operator; the right one is a copy of a place.
#[derive(Clone, Copy)]
pub enum Left {
    Local(LocalId),
    Constant(Constant),
}
