// Statements, in order of creation, each with its block's number: a new row touches nothing else. The statements of the listing are
// live and dead marks, and the assignments of each rvalue to a local.
#![tactic(auto)]

ghost use Rattle.std.specs.Prelude.{◌≡◌, ◌++◌, length};
ghost use Rattle.row_tables.specs.Rows.{stored};
ghost use Rattle.mir.specs.Statements.{halves, place_words, new_statement, statements_after, statement_words};
ghost use Rattle.mir.specs.Rvalues.{constant_words, left_words, place_rvalue_kind, binary_kind, live_row, dead_row, place_rvalue_row, constant_row, binary_row};

use mir::rvalues::{BinOp, Constant, Left, PlaceRvalue};
use mir::{BasicBlockId, Counts, STATEMENT_WIDTH};
use place::{LocalId, Place};
use row_tables::store_row;

// The words of a place: its local, its count of elements, and 16 elements of two words.
pub fn place_words(place: Place) -> [u16; 34]
    ensures { result ≡ place_words place }
{
    let elems = place.elems;
    let mut words = [0u16; 34];
    words[0] = place.local.0;
    words[1] = place.len;
    split_elems(&elems, &mut words);
    words
}

// Each element as two words, the low half first, from the third word on.
fn split_elems(elems: &[u32], words: &mut [u16])
    requires { (length elems.now ≡ 16) × (length words.old ≡ 34) }
    ensures { words.new ≡ stored words.old 2 (halves elems.now) }
{
    for (i, elem) in elems.iter().enumerate() {
        words[2 + 2 * i] = (*elem % 65536) as u16;
        words[3 + 2 * i] = (*elem / 65536) as u16;
    }
}

// A statement at the end of the table: its block, its kind, the local that it is about, its left operand and its place. None where the limit is passed.
pub fn push_statement(
    statements: &mut [u16],
    counts: Counts,
    head: [u16; 3],
    operand: [u16; 12],
    place: [u16; 34],
) -> Option<Counts>
    requires { length statements.old ≡ statement_words }
    ensures { (result ≡ new_statement counts) × (statements.new ≡ statements_after counts statements.old (head ++ (operand ++ place))) }
{
    let n = counts.statements;
    if 1024 <= n {
        return None;
    }
    let at = STATEMENT_WIDTH * (n as usize);
    store_row(statements, at, &head);
    store_row(statements, at + 3, &operand);
    store_row(statements, at + 15, &place);
    Some(Counts {
        statements: n + 1,
        ..counts
    })
}

// The words of a constant, as an operand.
pub fn constant_words(constant: Constant) -> [u16; 12]
    ensures { result ≡ constant_words constant }
{
    let low = constant.low;
    let high = constant.high;
    [
        2,
        constant.count,
        constant.ty,
        constant.offset,
        (low % 65536) as u16,
        (low / 65536 % 65536) as u16,
        (low / 4294967296 % 65536) as u16,
        (low / 281474976710656 % 65536) as u16,
        (high % 65536) as u16,
        (high / 65536 % 65536) as u16,
        (high / 4294967296 % 65536) as u16,
        (high / 281474976710656 % 65536) as u16,
    ]
}

fn left_words(left: Left) -> [u16; 12]
    ensures { result ≡ left_words left }
{
    match left {
        Left::Local(l) => [1, l.0, 0, 0, 0, 0, 0, 0, 0, 0, 0, 0],
        Left::Constant(constant) => constant_words(constant),
    }
}

fn place_rvalue_kind(rvalue: PlaceRvalue) -> u16
    ensures { result ≡ place_rvalue_kind rvalue }
{
    match rvalue {
        PlaceRvalue::Copy => 3,
        PlaceRvalue::Ref => 4,
        PlaceRvalue::Mut => 5,
        PlaceRvalue::Len => 6,
        PlaceRvalue::Discr => 7,
    }
}

fn binary_kind(op: BinOp) -> u16
    ensures { result ≡ binary_kind op }
{
    match op {
        BinOp::Eq => 9,
        BinOp::Le => 10,
        BinOp::Ge => 11,
        BinOp::Gt => 12,
    }
}

// StorageLive of a local. None where the limit is passed.
pub fn push_live(
    statements: &mut [u16],
    counts: Counts,
    block: BasicBlockId,
    l: LocalId,
) -> Option<Counts>
    requires { length statements.old ≡ statement_words }
    ensures { (result ≡ new_statement counts) × (statements.new ≡ statements_after counts statements.old (live_row block l)) }
{
    push_statement(
        statements,
        counts,
        [block.0, 1, l.0],
        [0u16; 12],
        [0u16; 34],
    )
}

// StorageDead of a local. None where the limit is passed.
pub fn push_dead(
    statements: &mut [u16],
    counts: Counts,
    block: BasicBlockId,
    l: LocalId,
) -> Option<Counts>
    requires { length statements.old ≡ statement_words }
    ensures { (result ≡ new_statement counts) × (statements.new ≡ statements_after counts statements.old (dead_row block l)) }
{
    push_statement(
        statements,
        counts,
        [block.0, 2, l.0],
        [0u16; 12],
        [0u16; 34],
    )
}

// A local set to what is made of a place. None where the limit is passed.
pub fn push_assignment(
    statements: &mut [u16],
    counts: Counts,
    block: BasicBlockId,
    target: LocalId,
    rvalue: PlaceRvalue,
    place: Place,
) -> Option<Counts>
    requires { length statements.old ≡ statement_words }
    ensures { (result ≡ new_statement counts) × (statements.new ≡ statements_after counts statements.old (place_rvalue_row block target rvalue place)) }
{
    let kind = place_rvalue_kind(rvalue);
    let words = place_words(place);
    push_statement(
        statements,
        counts,
        [block.0, kind, target.0],
        [0u16; 12],
        words,
    )
}

// A local set to a constant. None where the limit is passed.
pub fn push_constant_assignment(
    statements: &mut [u16],
    counts: Counts,
    block: BasicBlockId,
    target: LocalId,
    constant: Constant,
) -> Option<Counts>
    requires { length statements.old ≡ statement_words }
    ensures { (result ≡ new_statement counts) × (statements.new ≡ statements_after counts statements.old (constant_row block target constant)) }
{
    let words = constant_words(constant);
    push_statement(
        statements,
        counts,
        [block.0, 8, target.0],
        words,
        [0u16; 34],
    )
}

// A local set to what an operator makes of a left operand and a copy of a place. None where the limit is passed.
pub fn push_binary_assignment(
    statements: &mut [u16],
    counts: Counts,
    block: BasicBlockId,
    target: LocalId,
    op: BinOp,
    left: Left,
    place: Place,
) -> Option<Counts>
    requires { length statements.old ≡ statement_words }
    ensures { (result ≡ new_statement counts) × (statements.new ≡ statements_after counts statements.old (binary_row block target op left place)) }
{
    let kind = binary_kind(op);
    let operand = left_words(left);
    let words = place_words(place);
    push_statement(
        statements,
        counts,
        [block.0, kind, target.0],
        operand,
        words,
    )
}
