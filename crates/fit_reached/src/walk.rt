// Patterns that are reached: one is refused, or none is and they can fail or not, told down to the subpatterns, whose numbers are smaller.
ghost use Rattle.std.specs.Prelude.{◌≡◌, true, ◌+◌, ◌<◌, ltb, length};
ghost use Rattle.image.specs.Tables.{Whole, pattern_count, binding_count};
ghost use Rattle.image.specs.Lists.{all_in};
ghost use Rattle.image.specs.Subpatterns.{if_present};
ghost use Rattle.image.specs.Tree.{tree, tree?};
ghost use Rattle.image.specs.Valid.{valid};
ghost use Rattle.fit_types.specs.Parts.{Parent, Node, Items, Pairs};
ghost use Rattle.fit_own.specs.Answers.{with_test, reached_by, reached_by?};
ghost use Rattle.fit_own.specs.Rows.{row_reached, alts_reached, below_reached};

use fit_own::Reached;
use fit_own::own::{own_taken, own_test};
use image::kinds::PatKind;
use image::rows::{PatRow, list_at, pat_at};
use image::{PatId, Tables};

// What is found, with one test more or none.
fn with_test(test: bool, found: Reached) -> Reached
    ensures { result ≡ with_test test found }
{
    if !test {
        return found;
    }
    match found {
        Reached::Refused => Reached::Refused,
        Reached::Sure => Reached::CanFail,
        Reached::CanFail => Reached::CanFail,
    }
}

// The patterns that the list names: all are reached.
#[cycle(reach)]
fn each(image: &[u8], tables: Tables, bindings: &[u16], p: PatId, at: u16, count: u16) -> Reached
    requires { Parent image.now tables p.0 × Items image.now p.0 at count × (length bindings.now ≡ binding_count image.now) }
    ensures { result ≡ row_reached image.now bindings.now 1 at count }
{
    let mut fails = false;
    for i in at..at + count {
        let q = list_at(image, tables, i);
        match reached(image, tables, bindings, PatId(q)) {
            Reached::Refused => {
                return Reached::Refused;
            }
            Reached::Sure => {}
            Reached::CanFail => {
                fails = true;
            }
        }
    }
    with_test(fails, Reached::Sure)
}

// The fields of a Record: each is the second of two words.
#[cycle(reach)]
fn pairs(image: &[u8], tables: Tables, bindings: &[u16], p: PatId, at: u16, count: u16) -> Reached
    requires { Parent image.now tables p.0 × Pairs image.now p.0 at count × (length bindings.now ≡ binding_count image.now) }
    ensures { result ≡ row_reached image.now bindings.now 2 (at + 1) count }
{
    let mut fails = false;
    for k in 0..count {
        let q = list_at(image, tables, at + 2 * k + 1);
        match reached(image, tables, bindings, PatId(q)) {
            Reached::Refused => {
                return Reached::Refused;
            }
            Reached::Sure => {}
            Reached::CanFail => {
                fails = true;
            }
        }
    }
    with_test(fails, Reached::Sure)
}

// The alternatives of an Or: those up to the first that cannot fail.
#[cycle(reach)]
fn alts(image: &[u8], tables: Tables, bindings: &[u16], p: PatId, at: u16, count: u16) -> Reached
    requires { Parent image.now tables p.0 × Items image.now p.0 at count × (length bindings.now ≡ binding_count image.now) }
    ensures { result ≡ alts_reached image.now bindings.now at count }
{
    for i in at..at + count {
        let q = list_at(image, tables, i);
        match reached(image, tables, bindings, PatId(q)) {
            Reached::Refused => {
                return Reached::Refused;
            }
            Reached::Sure => {
                return Reached::Sure;
            }
            Reached::CanFail => {}
        }
    }
    Reached::CanFail
}

// A subpattern that may be absent. Where it is absent the word q is 65535.
#[cycle(reach)]
fn sub(image: &[u8], tables: Tables, bindings: &[u16], p: PatId, q: u16) -> Reached
    requires { Parent image.now tables p.0 × (all_in (λ s. ltb s p.0) (if_present q) ≡ true) × (length bindings.now ≡ binding_count image.now) }
    ensures { result ≡ reached_by? image.now bindings.now (tree? (tree image.now) q) }
{
    if q == 65535 {
        return Reached::Sure;
    }
    reached(image, tables, bindings, PatId(q))
}

// The patterns below p, by its kind: a Slice's suffix stands behind its prefix.
#[cycle(reach)]
fn below(
    image: &[u8],
    tables: Tables,
    bindings: &[u16],
    p: PatId,
    row: PatRow,
    kind: PatKind,
) -> Reached
    requires { Node image.now tables p.0 row kind × (length bindings.now ≡ binding_count image.now) }
    ensures { result ≡ below_reached image.now bindings.now kind row }
{
    match kind {
        PatKind::Tuple => each(image, tables, bindings, p, row.a, row.b),
        PatKind::Or => alts(image, tables, bindings, p, row.a, row.b),
        PatKind::Record => pairs(image, tables, bindings, p, row.a, row.b),
        PatKind::Slice => each(image, tables, bindings, p, row.a, row.b + row.c),
        PatKind::Bind => sub(image, tables, bindings, p, row.b),
        PatKind::TupleStruct => each(image, tables, bindings, p, row.a, row.b),
        PatKind::Ref => reached(image, tables, bindings, PatId(row.a)),
        _ => Reached::Sure,
    }
}

// The pattern p, and those below it that are reached.
#[cycle(reach)]
pub fn reached(image: &[u8], tables: Tables, bindings: &[u16], p: PatId) -> Reached
    requires { (valid image.now ≡ true) × Whole image.now tables × (p.0 < pattern_count image.now) × (length bindings.now ≡ binding_count image.now) }
    ensures { result ≡ reached_by image.now bindings.now (tree image.now p.0) }
{
    let row = pat_at(image, tables, p);
    let kind = PatKind::from(row.kind);
    if !own_taken(image, tables, bindings, row, kind) {
        return Reached::Refused;
    }
    let found = below(image, tables, bindings, p, row, kind);
    with_test(own_test(image, tables, row, kind), found)
}
