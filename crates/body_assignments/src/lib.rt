// Assignments as a body's last statement: a leaf for each function on the table of statements, which is handed its part.
#![tactic(auto)]

ghost use Rattle.std.specs.Prelude.{◌≡◌, length};
ghost use Rattle.mir.specs.Statements.{new_statement, statements_after};
ghost use Rattle.mir.specs.Rvalues.{place_rvalue_row, constant_row, binary_row};
ghost use Rattle.body_tables.specs.Layout.{body_words, body_of, with_statements};

use body_tables::{LOCALS, STATEMENTS};
use mir::rvalues::{BinOp, Constant, Left, PlaceRvalue};
use mir::{BasicBlockId, Counts};
use place::{LocalId, Place};

// A local is what an rvalue makes of a place. None where the limit is passed.
pub fn push_assignment(
    body: &mut [u16],
    counts: Counts,
    block: BasicBlockId,
    target: LocalId,
    rvalue: PlaceRvalue,
    place: Place,
) -> Option<Counts>
    requires { length body.old ≡ body_words }
    ensures { (result ≡ new_statement counts) × (body_of body.new ≡ with_statements (body_of body.old) (statements_after counts (body_of body.old).statements (place_rvalue_row block target rvalue place))) }
{
    mir_statements::push_assignment(
        &mut body[STATEMENTS..LOCALS],
        counts,
        block,
        target,
        rvalue,
        place,
    )
}

// A local is a constant. None where the limit is passed.
pub fn push_constant_assignment(
    body: &mut [u16],
    counts: Counts,
    block: BasicBlockId,
    target: LocalId,
    constant: Constant,
) -> Option<Counts>
    requires { length body.old ≡ body_words }
    ensures { (result ≡ new_statement counts) × (body_of body.new ≡ with_statements (body_of body.old) (statements_after counts (body_of body.old).statements (constant_row block target constant))) }
{
    mir_statements::push_constant_assignment(
        &mut body[STATEMENTS..LOCALS],
        counts,
        block,
        target,
        constant,
    )
}

// A local is what an operator makes of an operand and a place. None where the limit is passed.
pub fn push_binary_assignment(
    body: &mut [u16],
    counts: Counts,
    block: BasicBlockId,
    target: LocalId,
    op: BinOp,
    left: Left,
    place: Place,
) -> Option<Counts>
    requires { length body.old ≡ body_words }
    ensures { (result ≡ new_statement counts) × (body_of body.new ≡ with_statements (body_of body.old) (statements_after counts (body_of body.old).statements (binary_row block target op left place))) }
{
    mir_statements::push_binary_assignment(
        &mut body[STATEMENTS..LOCALS],
        counts,
        block,
        target,
        op,
        left,
        place,
    )
}
