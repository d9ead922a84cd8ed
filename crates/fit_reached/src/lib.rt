// The part of the fit test that decides that nothing refused is reached.
#![tactic(auto)]

pub mod walk; // walk.rt: a pattern and those below it

ghost use Rattle.std.specs.Prelude.{◌≡◌, true, ◌<◌, length};
ghost use Rattle.image.specs.Tables.{Whole, pattern_count, binding_count};
ghost use Rattle.image.specs.Tree.{tree};
ghost use Rattle.image.specs.Valid.{valid};
ghost use Rattle.meaning.specs.Fit.{nothing_refused};
ghost use Rattle.fit_own.specs.Taking.{FitsSomewhere};

use fit_own::Reached;
use image::{PatId, Tables};
use walk::reached;

// Nothing refused is reached from the pattern p, whose types fit.
pub fn nothing_refused(image: &[u8], tables: Tables, bindings: &[u16], p: PatId) -> bool
    requires image_value { (valid image.now ≡ true) × Whole image.now tables × (p.0 < pattern_count image.now) × (length bindings.now ≡ binding_count image.now) }
    requires fits_somewhere { FitsSomewhere image.now p.0 }
    ensures { result ≡ nothing_refused image.now bindings.now (tree image.now p.0) }
{
    match reached(image, tables, bindings, p) {
        Reached::Refused => false,
        Reached::Sure => true,
        Reached::CanFail => true,
    }
}
