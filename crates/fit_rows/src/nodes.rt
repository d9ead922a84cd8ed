// A pattern's own binding, and its row of subpatterns.
ghost use Rattle.std.specs.Prelude.{◌≡◌, true, ◌||◌, ◌+◌, ◌-◌, ◌*◌, ◌<◌, ◌≤◌, eqb, ltb};
ghost use Rattle.image.specs.Tables.{Whole, type_count, pattern_count};
ghost use Rattle.image.specs.Kinds.{pat_kind, type_kind};
ghost use Rattle.image.specs.Rows.{pat_at, type_at};
ghost use Rattle.image.specs.Rules.{absent};
ghost use Rattle.image.specs.Valid.{valid};
ghost use Rattle.fit_rows.specs.Nodes.{Lies, number_at, rest_of, listed_row, present_row, one_row, plain, bare, alternatives_node, bind_node, rest_of_type, rest_by_kind, rest_own, node_by, node_of, telling_of};

use image::kinds::{PatKind, TypeKind};
use image::rows::{PatRow, list_at, pat_at, type_at};
use image::{BindingId, PatId, Tables};

// Patterns in a row: where the first stands, how far apart they stand, and how many they are. With step 0, the first is the pattern `from`; else its
// number is the word `from` of the list. All numbers are below `below`.
#[derive(Clone, Copy)]
pub struct Row {
    pub below: u16,
    pub step: u16,
    pub from: u16,
    pub count: u16,
}

// The binding that stands in a pattern itself: its number and its type, and of an array's rest how many elements are left.
#[derive(Clone, Copy)]
pub enum Own {
    None,
    At(BindingId, u16),
    Rest(BindingId, u16, u16),
}

// A pattern's own binding, its subpatterns, and whether these are alternatives.
#[derive(Clone, Copy)]
pub struct Node {
    pub own: Own,
    pub row: Row,
    pub alternatives: bool,
}

// The first pattern of a row.
pub fn first(image: &[u8], tables: Tables, row: Row) -> PatId
    requires { Whole image.now tables × Lies image.now row × (0 < row.count) }
    ensures { result.0 ≡ number_at image.now row.step row.from }
{
    if row.step == 0 {
        return PatId(row.from);
    }
    PatId(list_at(image, tables, row.from))
}

// The row without its first pattern.
pub fn rest(row: Row) -> Row
    requires { (row.from + row.step < 65536) × (0 < row.count) }
    ensures { result ≡ rest_of row }
{
    Row {
        from: row.from + row.step,
        count: row.count - 1,
        ..row
    }
}

// The row without its first k patterns.
pub fn behind(row: Row, k: u16) -> Row
    requires { (row.from + row.step * k < 65536) × (k ≤ row.count) }
    ensures { result ≡ listed_row row.below row.step (row.from + row.step * k) (row.count - k) }
{
    Row {
        from: row.from + row.step * k,
        count: row.count - k,
        ..row
    }
}

// The row of one pattern.
pub fn one(below: u16, p: PatId) -> Row
    ensures { result ≡ one_row below p.0 }
{
    Row {
        below: below,
        step: 0,
        from: p.0,
        count: 1,
    }
}

// The row of a pattern that may be absent. Where it is absent the word p is 65535.
fn present(below: u16, p: u16) -> Row
    ensures { result ≡ present_row below p }
{
    if p == 65535 {
        return Row {
            below: below,
            step: 0,
            from: p,
            count: 0,
        };
    }
    one(below, PatId(p))
}

// Words of the list, each `step` behind the one before.
fn listed(below: u16, step: u16, from: u16, count: u16) -> Row
    ensures { result ≡ listed_row below step from count }
{
    Row {
        below: below,
        step: step,
        from: from,
        count: count,
    }
}

// A pattern that has no binding of its own.
fn no_binding(row: Row) -> Node
    ensures { result ≡ plain row }
{
    Node {
        own: Own::None,
        row: row,
        alternatives: false,
    }
}

// A pattern that has neither a binding nor a subpattern.
fn no_subpatterns(below: u16) -> Node
    ensures { result ≡ bare below }
{
    no_binding(listed(below, 0, 65535, 0))
}

// An Or.
fn alternatives(row: Row) -> Node
    ensures { result ≡ alternatives_node row }
{
    Node {
        own: Own::None,
        row: row,
        alternatives: true,
    }
}

// A Bind.
fn bind_node(p: PatId, row: PatRow) -> Node
    ensures { result ≡ bind_node p.0 row }
{
    Node {
        own: Own::At(BindingId(row.a), row.ty),
        row: present(p.0, row.b),
        alternatives: false,
    }
}

// The binding b of a rest: t is the slice's type, and `items` the count of its items.
fn rest_of_type(image: &[u8], tables: Tables, b: BindingId, t: u16, items: u16) -> Own
    requires { Whole image.now tables × (t < type_count image.now) }
    ensures { result ≡ rest_of_type (type_kind (type_at image.now t).kind) (type_at image.now t) b t items }
{
    let row = type_at(image, tables, t);
    match TypeKind::from(row.kind) {
        TypeKind::Array => {
            if row.b <= items {
                return Own::Rest(b, row.a, 0);
            }
            Own::Rest(b, row.a, row.b - items)
        }
        _ => Own::At(b, t),
    }
}

// The binding of a rest, by its kind. Only of a Bind is the word a of its row a binding.
fn rest_by_kind(image: &[u8], tables: Tables, kind: PatKind, a: u16, t: u16, items: u16) -> Own
    requires { Whole image.now tables × (t < type_count image.now) }
    ensures { result ≡ rest_by_kind kind image.now a t items }
{
    match kind {
        PatKind::Bind => rest_of_type(image, tables, BindingId(a), t, items),
        _ => Own::None,
    }
}

// The binding of a rest that may be absent. Where it is absent the word d is 65535.
fn rest_own(image: &[u8], tables: Tables, d: u16, t: u16, items: u16) -> Own
    requires { Whole image.now tables × (t < type_count image.now) × (eqb d absent || ltb d (pattern_count image.now) ≡ true) }
    ensures { result ≡ rest_own image.now d t items }
{
    if d == 65535 {
        return Own::None;
    }
    let row = pat_at(image, tables, PatId(d));
    rest_by_kind(image, tables, PatKind::from(row.kind), row.a, t, items)
}

// A slice: the binding of its rest, and its prefix and suffix, which stand in one row.
fn slice_node(image: &[u8], tables: Tables, p: PatId, row: PatRow) -> Node
    requires { (valid image.now ≡ true) × Whole image.now tables × (p.0 < pattern_count image.now) × (row ≡ pat_at image.now p.0) × (pat_kind row.kind ≡ PatKind.Slice) }
    ensures { result ≡ node_by PatKind.Slice image.now p.0 row }
{
    let items = row.b + row.c;
    Node {
        own: rest_own(image, tables, row.d, row.ty, items),
        row: listed(p.0, 1, row.a, items),
        alternatives: false,
    }
}

// The pattern p, by its row and kind.
fn node_by(image: &[u8], tables: Tables, p: PatId, row: PatRow, kind: PatKind) -> Node
    requires { (valid image.now ≡ true) × Whole image.now tables × (p.0 < pattern_count image.now) × (row ≡ pat_at image.now p.0) × (kind ≡ pat_kind row.kind) }
    ensures { result ≡ node_by kind image.now p.0 row }
{
    match kind {
        PatKind::Tuple => no_binding(listed(p.0, 1, row.a, row.b)),
        PatKind::Or => alternatives(listed(p.0, 1, row.a, row.b)),
        PatKind::Record => no_binding(listed(p.0, 2, row.a + 1, row.b)),
        PatKind::Slice => slice_node(image, tables, p, row),
        PatKind::Bind => bind_node(p, row),
        PatKind::TupleStruct => no_binding(listed(p.0, 1, row.a, row.b)),
        PatKind::Ref => no_binding(one(p.0, PatId(row.a))),
        _ => no_subpatterns(p.0),
    }
}

// The pattern p.
pub fn node_at(image: &[u8], tables: Tables, p: PatId) -> Node
    requires { (valid image.now ≡ true) × Whole image.now tables × (p.0 < pattern_count image.now) }
    ensures { result ≡ node_of image.now p.0 }
{
    let row = pat_at(image, tables, p);
    node_by(image, tables, p, row, PatKind::from(row.kind))
}

// The subpatterns whose bindings are the pattern's: of an Or the first alternative.
pub fn telling(node: Node) -> Row
    ensures { result ≡ telling_of node }
{
    if !node.alternatives {
        return node.row;
    }
    if node.row.count == 0 {
        return node.row;
    }
    listed(node.row.below, node.row.step, node.row.from, 1)
}
