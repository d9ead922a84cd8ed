// What is asked of each binding of a row of patterns.
ghost use Rattle.std.specs.Prelude.{◌≡◌, true};
ghost use Rattle.image.specs.Tables.{Whole};
ghost use Rattle.image.specs.Valid.{valid};
ghost use Rattle.fit_rows.specs.Nodes.{Lies};
ghost use Rattle.fit_rows.specs.Bound.{all_of, agrees, owned, bound_in_row};

use fit_rows::found::{Test, Wanted, found};
use fit_rows::nodes::{Own, Row, behind, first, node_at, telling};
use image::{BindingId, Tables};

// The binding b at the type t is bound in the others as the test asks.
fn at_agrees(image: &[u8], tables: Tables, test: Test, b: BindingId, t: u16, others: Row) -> bool
    requires { (valid image.now ≡ true) × Whole image.now tables × Lies image.now others }
    ensures { result ≡ all_of (agrees test (bound_in_row image.now others)) (owned (Own.At b t)) }
{
    match test {
        Test::Same => found(image, tables, Wanted::At(b, t), others),
        Test::Apart => !found(image, tables, Wanted::Binding(b), others),
    }
}

// And the binding b of an array's rest.
fn rest_agrees(
    image: &[u8],
    tables: Tables,
    test: Test,
    b: BindingId,
    t: u16,
    n: u16,
    others: Row,
) -> bool
    requires { (valid image.now ≡ true) × Whole image.now tables × Lies image.now others }
    ensures { result ≡ all_of (agrees test (bound_in_row image.now others)) (owned (Own.Rest b t n)) }
{
    match test {
        Test::Same => found(image, tables, Wanted::Rest(b, t, n), others),
        Test::Apart => !found(image, tables, Wanted::Binding(b), others),
    }
}

// A pattern's own binding is bound in the others as the test asks.
pub fn own_agrees(image: &[u8], tables: Tables, test: Test, own: Own, others: Row) -> bool
    requires { (valid image.now ≡ true) × Whole image.now tables × Lies image.now others }
    ensures { result ≡ all_of (agrees test (bound_in_row image.now others)) (owned own) }
{
    match own {
        Own::None => true,
        Own::At(b, t) => at_agrees(image, tables, test, b, t, others),
        Own::Rest(b, t, n) => rest_agrees(image, tables, test, b, t, n, others),
    }
}

// Each binding of a row of patterns is bound in the others as the test asks.
pub fn each_agrees(image: &[u8], tables: Tables, test: Test, row: Row, others: Row) -> bool
    requires { (valid image.now ≡ true) × Whole image.now tables × Lies image.now row × Lies image.now others }
    ensures { result ≡ all_of (agrees test (bound_in_row image.now others)) (bound_in_row image.now row) }
{
    for k in 0..row.count {
        let p = first(image, tables, behind(row, k));
        let node = node_at(image, tables, p);
        if !own_agrees(image, tables, test, node.own, others)
            || !each_agrees(image, tables, test, telling(node), others)
        {
            return false;
        }
    }
    true
}
