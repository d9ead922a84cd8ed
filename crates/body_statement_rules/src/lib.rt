// Whether the rows of a body's statements may be handed in: those in use name nothing that is missing.
#![tactic(auto)]

ghost use Rattle.std.specs.Prelude.{◌≡◌, ◌<◌, ◌≤◌, length};
ghost use Rattle.image.specs.Lists.{all_below};
ghost use Rattle.mir.specs.Statements.{statement_words};
ghost use Rattle.body_row_rules.specs.Bodies.{elem_at_holds, statement_place_holds, constant_holds, left_holds, rvalue_holds, statement_holds};

use body_row_rules::rows::{elem_holds, is_type_word};
use mir::{Counts, STATEMENT_WIDTH};
use place::elems::elem_of;

// The element j of the place in the statement i.
fn elem_at_holds(variants: u16, statements: &[u16], i: u16, j: u16) -> bool
    requires { (length statements.now ≡ statement_words) × (i < 1024) × (j < 16) }
    ensures { result ≡ elem_at_holds variants statements.now i j }
{
    let at = STATEMENT_WIDTH * (i as usize) + 17 + 2 * (j as usize);
    let word = (statements[at] as u32) + 65536 * (statements[at + 1] as u32);
    elem_holds(variants, elem_of(word))
}

// The elements of the place in the statement i: so many.
fn elems_hold(variants: u16, statements: &[u16], i: u16, count: u16) -> bool
    requires { (length statements.now ≡ statement_words) × (i < 1024) × (count ≤ 16) }
    ensures { result ≡ all_below (elem_at_holds variants statements.now i) count }
{
    (0..count).all(|j| elem_at_holds(variants, statements, i, j))
}

// The place in the statement i.
fn place_holds(variants: u16, statements: &[u16], counts: Counts, i: u16) -> bool
    requires { (length statements.now ≡ statement_words) × (i < 1024) }
    ensures { result ≡ statement_place_holds variants statements.now counts i }
{
    let at = STATEMENT_WIDTH * (i as usize);
    if counts.locals <= statements[at + 15] {
        return false;
    }
    let count = statements[at + 16];
    if 16 < count {
        return false;
    }
    elems_hold(variants, statements, i, count)
}

// The constant in the statement i.
fn constant_holds(types: u16, statements: &[u16], i: u16) -> bool
    requires { (length statements.now ≡ statement_words) × (i < 1024) }
    ensures { result ≡ constant_holds types statements.now i }
{
    let at = STATEMENT_WIDTH * (i as usize);
    if statements[at + 3] != 2 {
        return false;
    }
    if 16 < statements[at + 4] {
        return false;
    }
    is_type_word(types, statements[at + 5])
}

// The left operand in the statement i.
fn left_holds(types: u16, statements: &[u16], counts: Counts, i: u16) -> bool
    requires { (length statements.now ≡ statement_words) × (i < 1024) }
    ensures { result ≡ left_holds types statements.now counts i }
{
    let at = STATEMENT_WIDTH * (i as usize);
    if statements[at + 3] == 1 {
        return statements[at + 4] < counts.locals;
    }
    constant_holds(types, statements, i)
}

// What the statement i, of this kind, makes its local of.
fn rvalue_holds(
    types: u16,
    variants: u16,
    statements: &[u16],
    counts: Counts,
    i: u16,
    kind: u16,
) -> bool
    requires { (length statements.now ≡ statement_words) × (i < 1024) }
    ensures { result ≡ rvalue_holds types variants statements.now counts i kind }
{
    if kind < 1 {
        return false;
    }
    if kind <= 2 {
        return true;
    }
    if kind <= 7 {
        return place_holds(variants, statements, counts, i);
    }
    if kind == 8 {
        return constant_holds(types, statements, i);
    }
    if 12 < kind {
        return false;
    }
    if !left_holds(types, statements, counts, i) {
        return false;
    }
    place_holds(variants, statements, counts, i)
}

// The statement i names nothing that is missing.
pub fn statement_holds(
    types: u16,
    variants: u16,
    statements: &[u16],
    counts: Counts,
    i: u16,
) -> bool
    requires { (length statements.now ≡ statement_words) × (i < 1024) }
    ensures { result ≡ statement_holds types variants statements.now counts i }
{
    let at = STATEMENT_WIDTH * (i as usize);
    if counts.blocks <= statements[at] {
        return false;
    }
    if counts.locals <= statements[at + 2] {
        return false;
    }
    rvalue_holds(types, variants, statements, counts, i, statements[at + 1])
}
