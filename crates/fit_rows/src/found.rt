// Whether a binding stands in a row of patterns.
ghost use Rattle.std.specs.Prelude.{◌≡◌, true};
ghost use Rattle.image.specs.Tables.{Whole};
ghost use Rattle.image.specs.Valid.{valid};
ghost use Rattle.fit_rows.specs.Nodes.{Lies};
ghost use Rattle.fit_rows.specs.Bound.{any_of, meets, owned, bound_in_row};

use super::nodes::{Own, Row, behind, first, node_at, telling};
use image::{BindingId, Tables};

// What is looked for: a binding at a type, a binding of an array's rest at the elements' type and how many are left, or a binding at any type.
#[derive(Clone, Copy)]
pub enum Wanted {
    At(BindingId, u16),
    Rest(BindingId, u16, u16),
    Binding(BindingId),
}

// That a binding stands among others at the same type, or that it does not stand among them at any type.
#[derive(Clone, Copy)]
pub enum Test {
    Same,
    Apart,
}

// The binding b at the type t is wanted.
fn wants_at(wanted: Wanted, b: BindingId, t: u16) -> bool
    ensures { result ≡ any_of (meets wanted) (owned (Own.At b t)) }
{
    match wanted {
        Wanted::At(x, y) => {
            if x.0 != b.0 {
                return false;
            }
            y == t
        }
        Wanted::Rest(_, _, _) => false,
        Wanted::Binding(x) => x.0 == b.0,
    }
}

// The binding b at the elements' type t, so many of which are left, is wanted.
fn wants_rest(wanted: Wanted, b: BindingId, t: u16, left: u16) -> bool
    ensures { result ≡ any_of (meets wanted) (owned (Own.Rest b t left)) }
{
    match wanted {
        Wanted::At(_, _) => false,
        Wanted::Rest(x, y, n) => {
            if x.0 != b.0 {
                return false;
            }
            if y != t {
                return false;
            }
            n == left
        }
        Wanted::Binding(x) => x.0 == b.0,
    }
}

// A pattern's own binding is wanted.
fn wants(wanted: Wanted, own: Own) -> bool
    ensures { result ≡ any_of (meets wanted) (owned own) }
{
    match own {
        Own::None => false,
        Own::At(b, t) => wants_at(wanted, b, t),
        Own::Rest(b, t, left) => wants_rest(wanted, b, t, left),
    }
}

// What is wanted is bound in a row of patterns.
pub fn found(image: &[u8], tables: Tables, wanted: Wanted, row: Row) -> bool
    requires { (valid image.now ≡ true) × Whole image.now tables × Lies image.now row }
    ensures { result ≡ any_of (meets wanted) (bound_in_row image.now row) }
{
    for k in 0..row.count {
        let p = first(image, tables, behind(row, k));
        let node = node_at(image, tables, p);
        if wants(wanted, node.own) || found(image, tables, wanted, telling(node)) {
            return true;
        }
    }
    false
}
