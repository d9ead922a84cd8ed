// What comes before a call's own step on a body that is taken: zeros are written above the counts, table by table.
#![tactic(auto)]

ghost use Rattle.std.specs.Prelude.{◌≡◌, true, ◌*◌, ◌≤◌, length};
ghost use Rattle.row_tables.specs.Rows.{cleared};
ghost use Rattle.state.specs.State.{decode, encode};
ghost use Rattle.body_row_rules.specs.Bodies.{counts_within};
ghost use Rattle.mir.specs.Blocks.{block_width};
ghost use Rattle.mir.specs.Statements.{statement_width};
ghost use Rattle.body_tables.specs.Layout.{body_words, body_of, with_blocks, with_statements, with_locals, with_scopes, with_entries};

use body_tables::{BODY_WORDS, ENTRIES, LOCALS, SCOPES, STATEMENTS};
use mir::{BLOCK_WIDTH, Counts, STATEMENT_WIDTH};
use row_tables::clear_from;

fn clear_blocks(body: &mut [u16], counts: Counts)
    requires { (length body.old ≡ body_words) × (counts.blocks ≤ 512) }
    ensures { body_of body.new ≡ with_blocks (body_of body.old) (cleared (body_of body.old).blocks (block_width * counts.blocks)) }
{
    clear_from(
        &mut body[0..STATEMENTS],
        BLOCK_WIDTH * (counts.blocks as usize),
    );
}

fn clear_statements(body: &mut [u16], counts: Counts)
    requires { (length body.old ≡ body_words) × (counts.statements ≤ 1024) }
    ensures { body_of body.new ≡ with_statements (body_of body.old) (cleared (body_of body.old).statements (statement_width * counts.statements)) }
{
    clear_from(
        &mut body[STATEMENTS..LOCALS],
        STATEMENT_WIDTH * (counts.statements as usize),
    );
}

fn clear_locals(body: &mut [u16], counts: Counts)
    requires { (length body.old ≡ body_words) × (counts.locals ≤ 512) }
    ensures { body_of body.new ≡ with_locals (body_of body.old) (cleared (body_of body.old).locals counts.locals) }
{
    clear_from(&mut body[LOCALS..SCOPES], counts.locals as usize);
}

fn clear_scopes(body: &mut [u16], counts: Counts)
    requires { (length body.old ≡ body_words) × (counts.scopes ≤ 32) }
    ensures { body_of body.new ≡ with_scopes (body_of body.old) (cleared (body_of body.old).scopes counts.scopes) }
{
    clear_from(&mut body[SCOPES..ENTRIES], counts.scopes as usize);
}

fn clear_entries(body: &mut [u16], counts: Counts)
    requires { (length body.old ≡ body_words) × (counts.entries ≤ 1024) }
    ensures { body_of body.new ≡ with_entries (body_of body.old) (cleared (body_of body.old).entries counts.entries) }
{
    clear_from(&mut body[ENTRIES..BODY_WORDS], counts.entries as usize);
}

// Zeros above the counts.
pub fn clear_above(body: &mut [u16; BODY_WORDS], counts: Counts)
    requires { counts_within counts ≡ true }
    ensures { body_of body.new ≡ encode (decode (body_of body.old) counts) }
{
    clear_blocks(body, counts);
    clear_statements(body, counts);
    clear_locals(body, counts);
    clear_scopes(body, counts);
    clear_entries(body, counts);
}
