// The names of nodes, and what the name table says of them.
ghost use Rattle.std.specs.Prelude.{◌≡◌};
ghost use Rattle.name_tables.specs.Names.{row_for};
ghost use Rattle.name_tables.specs.Tested.{NameBytesWithin, use_of};
ghost use Rattle.pattern_syntax.specs.Reduced.{bytes_from};
ghost use Rattle.pattern_typing.specs.Failing.{lower};
ghost use Rattle.name_resolving.specs.Gives.{named_as};

use name_lookup::row_for;
use name_tables::{NameUse, name_row_at};
use node_rows::NodeRow;

// The lower of two positions.
pub fn lower_of(a: usize, b: usize) -> usize
    ensures { result ≡ lower a b }
{
    if b < a { b } else { a }
}

// The bytes between two positions, as far as there are any.
fn name_bytes(spelled: &[u8], from: u16, to: u16) -> &[u8]
    ensures { result.now ≡ bytes_from spelled.now from to }
{
    let last = lower_of(to as usize, spelled.len());
    let first = lower_of(from as usize, last);
    &spelled[first..last]
}

// What a node's name is, for a use: its kind and its number, or none where the table lacks it.
pub fn look_up(names: &[u8], wanted: NameUse, spelled: &[u8], node: NodeRow) -> Option<(u16, u16)>
    requires { NameBytesWithin names.now }
    ensures { result ≡ named_as names.now (row_for names.now (use_of wanted) (bytes_from spelled.now node.from node.to)) }
{
    let row = row_for(names, wanted, name_bytes(spelled, node.from, node.to))?;
    let found = name_row_at(names, row);
    Some((found.kind, found.number))
}
