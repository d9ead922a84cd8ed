// The clause on bindings, for each pattern of a row.
ghost use Rattle.std.specs.Prelude.{◌≡◌, true, ◌<◌};
ghost use Rattle.image.specs.Tables.{Whole, pattern_count};
ghost use Rattle.image.specs.Tree.{tree};
ghost use Rattle.image.specs.Valid.{valid};
ghost use Rattle.meaning.specs.Fit.{same_bindings, bound_in, bind_once, all_bindings_fit, alternatives_fit};
ghost use Rattle.fit_rows.specs.Nodes.{Lies, row_trees};
ghost use Rattle.fit_rows.specs.Bound.{bound_in_row, joins};

use super::each::{each_agrees, own_agrees};
use fit_rows::found::Test;
use fit_rows::nodes::{Node, Row, behind, first, node_at, one, rest};
use image::{PatId, Tables};

// Two patterns bind the same bindings at the same types.
fn same(image: &[u8], tables: Tables, p: PatId, q: PatId) -> bool
    requires { (valid image.now ≡ true) × Whole image.now tables × (p.0 < pattern_count image.now) × (q.0 < pattern_count image.now) }
    ensures { result ≡ same_bindings (bound_in image.now (tree image.now p.0)) (bound_in image.now (tree image.now q.0)) }
{
    let a = one(p.0 + 1, p);
    let b = one(q.0 + 1, q);
    if !each_agrees(image, tables, Test::Same, a, b) {
        return false;
    }
    each_agrees(image, tables, Test::Same, b, a)
}

// There is an alternative, and the others bind what it binds.
fn alternatives_fit(image: &[u8], tables: Tables, row: Row) -> bool
    requires { (valid image.now ≡ true) × Whole image.now tables × Lies image.now row }
    ensures { result ≡ alternatives_fit image.now (row_trees image.now row) }
{
    if row.count == 0 {
        return false;
    }
    let p = first(image, tables, row);
    let others = rest(row);
    for k in 0..others.count {
        let q = first(image, tables, behind(others, k));
        if !same(image, tables, p, q) {
            return false;
        }
    }
    true
}

// No binding stands twice in a row of patterns that fit.
fn once(image: &[u8], tables: Tables, row: Row) -> bool
    requires { (valid image.now ≡ true) × Whole image.now tables × Lies image.now row × (all_bindings_fit image.now (row_trees image.now row) ≡ true) }
    ensures { result ≡ bind_once image.now (bound_in_row image.now row) }
{
    for k in 0..row.count {
        let left = behind(row, k);
        let p = first(image, tables, left);
        if !each_agrees(image, tables, Test::Apart, one(p.0 + 1, p), rest(left)) {
            return false;
        }
    }
    true
}

// What a pattern asks of its subpatterns, which fit.
fn joined(image: &[u8], tables: Tables, node: Node) -> bool
    requires { (valid image.now ≡ true) × Whole image.now tables × Lies image.now node.row × (all_bindings_fit image.now (row_trees image.now node.row) ≡ true) }
    ensures { result ≡ joins image.now node }
{
    if node.alternatives {
        return alternatives_fit(image, tables, node.row);
    }
    let own = node.own;
    if !own_agrees(image, tables, Test::Apart, own, node.row) {
        return false;
    }
    once(image, tables, node.row)
}

// Each pattern of a row fits, its subpatterns first.
pub fn all_fit(image: &[u8], tables: Tables, row: Row) -> bool
    requires { (valid image.now ≡ true) × Whole image.now tables × Lies image.now row }
    ensures { result ≡ all_bindings_fit image.now (row_trees image.now row) }
{
    for k in 0..row.count {
        let p = first(image, tables, behind(row, k));
        let node = node_at(image, tables, p);
        if !all_fit(image, tables, node.row) || !joined(image, tables, node) {
            return false;
        }
    }
    true
}
