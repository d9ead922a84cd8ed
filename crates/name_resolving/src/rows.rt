// The rows of what is made of a node, and of how its parts are read.
ghost use Rattle.std.specs.Prelude.{◌≡◌};
ghost use Rattle.name_resolving.specs.Gives.{made_row, literal_row, unseen_row, same_row, refused_row, not_made_row, whole_resolution};

use crate::Resolution;
use node_rows::{MakingRow, NodeRow};
use type_parts::PartsRow;

// A row with these words, the others 0.
pub fn made(kind: u16, parts: u16, ty: u16, derefs: u16, a: u16, b: u16, c: u16) -> MakingRow
    ensures { result ≡ made_row kind parts ty derefs a b c }
{
    MakingRow {
        kind: kind,
        parts: parts,
        ty: ty,
        derefs: derefs,
        a: a,
        b: b,
        c: c,
        from: 0,
        to: 0,
        element: 0,
        many: 0,
        copy: 0,
    }
}

// The row of a literal, whose sort and place are the node's.
pub fn literal_made(kind: u16, node: NodeRow, ty: u16, derefs: u16) -> MakingRow
    ensures { result ≡ literal_row kind node ty derefs }
{
    MakingRow {
        kind: kind,
        parts: node.parts,
        ty: ty,
        derefs: derefs,
        a: node.more,
        b: 0,
        c: 0,
        from: node.from,
        to: node.to,
        element: 0,
        many: 0,
        copy: 0,
    }
}

// No part is looked at.
pub fn unseen_parts() -> PartsRow
    ensures { result ≡ unseen_row }
{
    PartsRow {
        kind: 0,
        a: 0,
        b: 0,
        c: 0,
        mode: 0,
        many: 0,
    }
}

// The parts are read as the node itself.
pub fn same_parts(t: u16, mode: u16) -> PartsRow
    ensures { result ≡ same_row t mode }
{
    PartsRow {
        kind: 1,
        a: t,
        b: 0,
        c: 0,
        mode: mode,
        many: 0,
    }
}

// The position is refused, and nothing inside is looked at.
pub fn refused_here(parts: u16, at: u16) -> Resolution
    ensures { result ≡ refused_row parts at }
{
    let making = made(0, parts, 0, 0, 0, 0, 0);
    let reads = unseen_parts();
    Resolution {
        refused: Some(at),
        making: making,
        reads: reads,
    }
}

// Nothing is made, inside what is refused already.
pub fn not_made(parts: u16) -> Resolution
    ensures { result ≡ not_made_row parts }
{
    let making = made(0, parts, 0, 0, 0, 0, 0);
    let reads = unseen_parts();
    Resolution {
        refused: None,
        making: making,
        reads: reads,
    }
}

// A row that is whole: Wild, Rest.
pub fn whole_made(parts: u16, t: u16, kind: u16) -> Resolution
    ensures { result ≡ whole_resolution parts t kind }
{
    let making = made(1, parts, t, 0, kind, 0, 0);
    let reads = unseen_parts();
    Resolution {
        refused: None,
        making: making,
        reads: reads,
    }
}
