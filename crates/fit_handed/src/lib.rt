// What a call of the fit test is handed: its bindings' table, its pattern and its type.
#![tactic(auto)]

ghost use Rattle.std.specs.Prelude.{◌≡◌};
ghost use Rattle.fit_handed.specs.Handed.{handed};

use image::{PatId, Tables};

// The bindings' table is as long as it must be, and the pattern and the type are there.
pub fn call_names(tables: Tables, bindings: &[u16], t: u16, p: PatId) -> bool
    ensures { result ≡ handed tables.bindings.count tables.patterns.count tables.types.count bindings.now p.0 t }
{
    if bindings.len() != (tables.bindings.count as usize) {
        return false;
    }
    if tables.patterns.count <= p.0 {
        return false;
    }
    t < tables.types.count
}
