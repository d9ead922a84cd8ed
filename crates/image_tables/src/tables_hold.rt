// The rules on single rows, over the rows of the tables of types, variants and bindings.
ghost use Rattle.std.specs.Prelude.{◌≡◌, ◌&&◌, ◌≤◌};
ghost use Rattle.image.specs.Tables.{Whole, type_count, variant_count, binding_count, list_count};
ghost use Rattle.image.specs.Lists.{all_below};
ghost use Rattle.image.specs.Rules.{type_holds, variant_holds, binding_holds};
ghost use Rattle.type_rules.specs.Runs.{Runs};
ghost use Rattle.image_tables.specs.Parts.{rows_hold};

use image::{BindingId, Tables};
use type_rules::{binding_holds, type_holds, type_runs, variant_holds};

fn types_hold(image: &[u8], tables: Tables, runs: &[u16]) -> bool
    requires { Whole image.now tables × Runs image.now runs.now }
    ensures { result ≡ all_below (type_holds image.now) (type_count image.now) }
{
    (0..tables.types.count).all(|i| type_holds(image, tables, runs, i))
}

fn variants_hold(image: &[u8], tables: Tables, runs: &[u16]) -> bool
    requires { Whole image.now tables × Runs image.now runs.now }
    ensures { result ≡ all_below (variant_holds image.now) (variant_count image.now) }
{
    (0..tables.variants.count).all(|i| variant_holds(image, tables, runs, i))
}

fn bindings_hold(image: &[u8], tables: Tables) -> bool
    requires { Whole image.now tables }
    ensures { result ≡ all_below (binding_holds image.now) (binding_count image.now) }
{
    (0..tables.bindings.count).all(|i| binding_holds(image, tables, BindingId(i)))
}

// The types, and the variants, whose field types stand in the list as those of tuples do.
fn listed_rows_hold(image: &[u8], tables: Tables, runs: &[u16]) -> bool
    requires { Whole image.now tables × Runs image.now runs.now }
    ensures { result ≡ all_below (type_holds image.now) (type_count image.now) && all_below (variant_holds image.now) (variant_count image.now) }
{
    if !types_hold(image, tables, runs) {
        return false;
    }
    variants_hold(image, tables, runs)
}

fn types_and_variants_hold(image: &[u8], tables: Tables) -> bool
    requires { Whole image.now tables × (list_count image.now ≤ 2048) }
    ensures { result ≡ all_below (type_holds image.now) (type_count image.now) && all_below (variant_holds image.now) (variant_count image.now) }
{
    let mut runs = [0u16; 2049];
    type_runs(image, tables, &mut runs);
    listed_rows_hold(image, tables, &runs)
}

// Every row of the three tables.
pub fn rows_hold(image: &[u8], tables: Tables) -> bool
    requires { Whole image.now tables × (list_count image.now ≤ 2048) }
    ensures { result ≡ rows_hold image.now }
{
    if !types_and_variants_hold(image, tables) {
        return false;
    }
    bindings_hold(image, tables)
}
