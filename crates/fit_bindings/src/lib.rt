// The part of the fit test that decides the clause on bindings: a binding stands twice only in different alternatives of one Or, and these bind the same.
#![tactic(auto)]

pub mod each; // each.rt: what is asked of each binding of a row of patterns
pub mod clause; // clause.rt: the clause, for each pattern of a row

ghost use Rattle.std.specs.Prelude.{◌≡◌, true, ◌<◌};
ghost use Rattle.image.specs.Tables.{Whole, pattern_count};
ghost use Rattle.image.specs.Tree.{tree};
ghost use Rattle.image.specs.Valid.{valid};
ghost use Rattle.meaning.specs.Fit.{bindings_fit};

use fit_rows::nodes::one;
use image::{PatId, Tables};

// The clause on bindings holds of the pattern p.
pub fn bindings_fit(image: &[u8], tables: Tables, p: PatId) -> bool
    requires { (valid image.now ≡ true) × Whole image.now tables × (p.0 < pattern_count image.now) }
    ensures { result ≡ bindings_fit image.now (tree image.now p.0) }
{
    clause::all_fit(image, tables, one(p.0 + 1, p))
}
