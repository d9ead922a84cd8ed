// What the parser does where a pattern or a bound begins, as numbers and rows.
#![tactic(auto)]

pub mod makers;
pub mod starts;

use node_rows::NodeRow;
use parsing_machine::ReadState;

// What is read of a node that neither waits nor has closed: see `heldIn` for the words of each state.
#[derive(Clone, Copy)]
pub struct HeldRow {
    pub at: u16,
    pub more: u16,
    pub spot: u16,
    pub from: u16,
    pub to: u16,
}

// A move, as in specs/Moves.antt of the machine.
#[derive(Clone, Copy)]
pub enum NodeMove {
    Halts(u16),
    Holds(ReadState, HeldRow),
    Opens(ReadState, NodeRow),
    OpensTwo(NodeRow, NodeRow),
    OpensBehind(ReadState, NodeRow, NodeRow),
    Mutates,
    Shuts(NodeRow),
    ShutsBefore(NodeRow),
    ShutsRange(NodeRow),
    ShutsRangeBefore(NodeRow),
    ShutsOpenRange,
    ShutsRest,
    PassesOn,
    ShutsTop,
    AddsField(NodeRow, NodeRow),
    AddsLastField(NodeRow, NodeRow),
}
