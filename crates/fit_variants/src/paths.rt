// What a path names, at the pattern's type.
ghost use Rattle.std.specs.Prelude.{◌≡◌, true, ◌<◌};
ghost use Rattle.image.specs.Tables.{Whole, type_count};
ghost use Rattle.image.specs.Patterns.{path_holds};
ghost use Rattle.image.specs.Types.{ty_of};
ghost use Rattle.image.specs.Tree.{target};
ghost use Rattle.image.specs.Valid.{valid};
ghost use Rattle.meaning.specs.Fit.{path_fits};

use super::discriminants::discriminants_differ;
use fit_literals::operands::constant_fits;
use image::Tables;
use image::kinds::PathKind;

// A path of a kind, at the type t: a variant's enum, or a constant's bytes. The word b is by the kind: a variant, a binding, or a constant's operand.
#[inline(never)] // its frame would stand in every turn of the fit
pub fn path_fits(image: &[u8], tables: Tables, t: u16, kind: PathKind, b: u16) -> bool
    requires { (valid image.now ≡ true) × Whole image.now tables × (t < type_count image.now) × (path_holds kind image.now b ≡ true) }
    ensures { result ≡ path_fits image.now (ty_of image.now t).shape (target kind image.now b) }
{
    match kind {
        PathKind::Variant => discriminants_differ(image, tables, t),
        PathKind::Constant => constant_fits(image, tables, t, b),
        _ => true,
    }
}
