// How a name is found: the first row that serves a use and has it.
#![tactic(auto)]

ghost use Rattle.std.specs.Prelude.{◌≡◌, ◌<◌};
ghost use Rattle.name_tables.specs.Names.{row_count, is_named, row_for};
ghost use Rattle.name_tables.specs.Tested.{NameBytesWithin, use_of, found_in};

use image::word_at;
use name_equality::is_same_word;
use name_tables::{NameUse, name_row_at};
use name_uses::row_serves;

// The row i serves the use and has this name.
fn row_is_named(names: &[u8], wanted: NameUse, name: &[u8], i: u16) -> bool
    requires { NameBytesWithin names.now × (i < row_count names.now) }
    ensures { result ≡ is_named names.now (use_of wanted) name.now i }
{
    let row = name_row_at(names, i);
    if !row_serves(wanted, row) {
        return false;
    }
    let from = 9 + 10 * (word_at(names, 5) as usize) + (row.start as usize);
    let to = from + (row.count as usize);
    is_same_word(&names[from..to], name)
}

// The first row that serves a use and has this name, or none.
pub fn row_for(names: &[u8], wanted: NameUse, name: &[u8]) -> Option<u16>
    requires { NameBytesWithin names.now }
    ensures { found_in result ≡ row_for names.now (use_of wanted) name.now }
{
    let count = word_at(names, 5);
    for i in 0..count {
        if row_is_named(names, wanted, name, i) {
            return Some(i);
        }
    }
    None
}
