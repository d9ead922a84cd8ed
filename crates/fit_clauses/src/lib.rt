// A pattern fits a place: all clauses of the fit hold.
#![tactic(auto)]

ghost use Rattle.std.specs.Prelude.{◌≡◌, true, ◌<◌, length};
ghost use Rattle.image.specs.Tables.{Whole, type_count, pattern_count, binding_count};
ghost use Rattle.image.specs.Tree.{tree};
ghost use Rattle.image.specs.Valid.{valid};
ghost use Rattle.meaning.specs.Fit.{fits};

use fit_bindings::bindings_fit;
use fit_locals::locals_differ;
use fit_reached::nothing_refused;
use fit_types::walk::types_fit;
use image::{PatId, Tables};
use place::LocalId;

// The pattern p fits a place of the type t: all clauses hold.
pub fn pattern_fits(
    image: &[u8],
    tables: Tables,
    bindings: &[u16],
    root: LocalId,
    t: u16,
    p: PatId,
) -> bool
    requires { (valid image.now ≡ true) × Whole image.now tables × (length bindings.now ≡ binding_count image.now) × (p.0 < pattern_count image.now) × (t < type_count image.now) }
    ensures { result ≡ fits image.now bindings.now root.0 t (tree image.now p.0) }
{
    if !types_fit(image, tables, Some(t), p) {
        return false;
    }
    if !bindings_fit(image, tables, p) {
        return false;
    }
    if !nothing_refused(image, tables, bindings, p) {
        return false;
    }
    locals_differ(bindings, root)
}
