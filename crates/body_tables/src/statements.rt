// Live and dead marks.
ghost use Rattle.std.specs.Prelude.{◌≡◌, length};
ghost use Rattle.mir.specs.Statements.{new_statement, statements_after};
ghost use Rattle.mir.specs.Rvalues.{live_row, dead_row};
ghost use Rattle.body_tables.specs.Layout.{body_words, body_of, with_statements};

use super::{LOCALS, STATEMENTS};
use mir::{BasicBlockId, Counts};
use place::LocalId;

// StorageLive of a local. None where the limit is passed.
pub fn push_live(
    body: &mut [u16],
    counts: Counts,
    block: BasicBlockId,
    l: LocalId,
) -> Option<Counts>
    requires { length body.old ≡ body_words }
    ensures { (result ≡ new_statement counts) × (body_of body.new ≡ with_statements (body_of body.old) (statements_after counts (body_of body.old).statements (live_row block l))) }
{
    mir_statements::push_live(&mut body[STATEMENTS..LOCALS], counts, block, l)
}

// StorageDead of a local. None where the limit is passed.
pub fn push_dead(
    body: &mut [u16],
    counts: Counts,
    block: BasicBlockId,
    l: LocalId,
) -> Option<Counts>
    requires { length body.old ≡ body_words }
    ensures { (result ≡ new_statement counts) × (body_of body.new ≡ with_statements (body_of body.old) (statements_after counts (body_of body.old).statements (dead_row block l))) }
{
    mir_statements::push_dead(&mut body[STATEMENTS..LOCALS], counts, block, l)
}
