// Whether a row of the name table is of a kind that a use looks for.
#![tactic(auto)]

ghost use Rattle.std.specs.Prelude.{◌≡◌};
ghost use Rattle.name_tables.specs.Names.{serves};
ghost use Rattle.name_tables.specs.Tested.{use_of};

use name_tables::{NameRow, NameUse};

// A row of a kind that a use looks for.
pub fn row_serves(wanted: NameUse, row: NameRow) -> bool
    ensures { result ≡ serves (use_of wanted) row }
{
    match wanted {
        NameUse::Variant => row.kind == 1,
        NameUse::Constant => row.kind == 3,
        NameUse::Value => {
            if row.kind == 1 {
                return true;
            }
            row.kind == 3
        }
        NameUse::FieldOf(owner) => {
            if row.kind != 2 {
                return false;
            }
            row.owner == owner
        }
    }
}
