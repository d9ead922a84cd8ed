// Where the listing program starts: the type of local 0, the numbers of the bindings' locals, and the place.
#![tactic(auto)]

ghost use Rattle.std.specs.Prelude.{◌≡◌, true, ◌<◌, length};
ghost use Rattle.std.proofs.Math.Option.{some};
ghost use Rattle.image.specs.Tables.{Whole, type_count};
ghost use Rattle.image.specs.Lists.{up_from};
ghost use Rattle.image.specs.Valid.{valid};
ghost use Rattle.pattern_matching.specs.Walking.{local_place};
ghost use Rattle.meaning.specs.Fit.{behind, is_type};
ghost use Rattle.listing_start.specs.Started.{start_type};
ghost use Rattle.listing_start.specs.Sizes.{start_type_of, IsType};

use image::rows::{pat_at, type_at};
use image::{PatId, Tables};
use place::{LocalId, Place};

// So many derefs bring the type t to the type ty.
fn leads_to(image: &[u8], tables: Tables, t: u16, derefs: u16, ty: u16) -> bool
    requires { (valid image.now ≡ true) × Whole image.now tables × (t < type_count image.now) }
    ensures { result ≡ is_type (behind image.now derefs (some t)) ty }
{
    let mut here = t;
    for _ in 0..derefs {
        let row = type_at(image, tables, here);
        if row.kind != 7 {
            return false;
        }
        here = row.a;
    }
    here == ty
}

// The type of local 0: the lowest-numbered that leads to the last pattern's, or none.
pub fn start_type(image: &[u8], tables: Tables) -> Option<u16>
    requires { (valid image.now ≡ true) × Whole image.now tables }
    ensures { (start_type_of result ≡ start_type image.now) × IsType image.now result }
{
    let row = pat_at(image, tables, PatId(tables.patterns.count - 1));
    for t in 0..tables.types.count {
        if leads_to(image, tables, t, row.derefs, row.ty) {
            return Some(t);
        }
    }
    None
}

// The numbers of the bindings' locals: 1, 2, and so on.
pub fn number_bindings(numbers: &mut [u16])
    requires { length numbers.old ≡ 256 }
    ensures { numbers.new ≡ up_from 1 256 }
{
    for (i, number) in numbers.iter_mut().enumerate() {
        *number = (i as u16) + 1;
    }
}

// The place that the last pattern is lowered against: local 0.
pub fn start_place() -> Place
    ensures { result ≡ local_place (record { 0 = 0 }) }
{
    Place {
        local: LocalId(0),
        len: 0,
        elems: [0u32; 16],
    }
}
