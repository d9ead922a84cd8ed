// What a type's shape gives to a pattern's parts: the types of fields, behind references and of elements, and the items of a slice.
#![tactic(auto)]

pub mod fields; // fields.rt: the types of fields, and a Record's field numbers
pub mod places; // places.rt: a pattern's type is its place's
pub mod slices; // slices.rt: the count of a slice's items, and its rest
