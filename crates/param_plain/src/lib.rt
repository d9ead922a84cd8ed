// A plain parameter, and whether a parameter binds self again (document 01's number 1).
#![tactic(auto)]

ghost use Rattle.std.specs.Prelude.{◌≡◌, ◌<◌};
ghost use Rattle.image.specs.Tables.{Whole, pattern_count};
ghost use Rattle.image.specs.Tree.{tree};
ghost use Rattle.params_spec.specs.Params.{plain_binding};
ghost use Rattle.params_spec.specs.Calls.{binds_receiver};
ghost use Rattle.param_plain.specs.Plain.{is_plain};

use image::rows::{PatRow, pat_at};
use image::{BindingId, PatId, Tables};

// The row is that of a plain parameter: a Bind by value with no subpattern.
pub fn is_plain(row: PatRow) -> bool
    ensures { result ≡ is_plain row }
{
    if row.kind != 11 {
        return false;
    }
    if row.b != 65535 {
        return false;
    }
    row.d < 2
}

// The parameter p is itself a Bind of b, with no subpattern and annotation 0 or 1.
pub fn binds_receiver(image: &[u8], tables: Tables, b: BindingId, p: PatId) -> bool
    requires { Whole image.now tables × (p.0 < pattern_count image.now) }
    ensures { result ≡ binds_receiver b.0 (plain_binding (tree image.now p.0)) }
{
    let row = pat_at(image, tables, p);
    if !is_plain(row) {
        return false;
    }
    row.a == b.0
}
