// What becomes of a node with a name, by what it is read at: a position that is refused, or what is made of it and how its parts are read.
#![tactic(auto)]

pub mod bindings; // bindings.rt: names that are bound, and paths
pub mod lookup; // lookup.rt: the names of nodes, and what the name table says of them
pub mod rows; // rows.rt: the rows of what is made

use node_rows::MakingRow;
use type_parts::PartsRow;

// A position that is refused or none, what is made, and how the parts are read.
#[derive(Clone, Copy)]
pub struct Resolution {
    pub refused: Option<u16>,
    pub making: MakingRow,
    pub reads: PartsRow,
}
