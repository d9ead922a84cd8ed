// Number 2's rules on the rows of a body's tables, with a leaf for each table, which is handed its part of the body.
#![tactic(auto)]

mod tables; // tables.rt: the rows of each table

ghost use Rattle.std.specs.Prelude.{◌≡◌, ◌≤◌, length};
ghost use Rattle.image.specs.Lists.{all_below};
ghost use Rattle.body_row_rules.specs.Bodies.{block_holds, statement_holds, local_holds, scope_holds, entry_holds, entries_belong};
ghost use Rattle.body_tables.specs.Layout.{body_words, body_of};

use body_tables::{BODY_WORDS, ENTRIES, LOCALS, SCOPES, STATEMENTS};
use mir::Counts;

pub fn blocks_hold(body: &[u16], counts: Counts) -> bool
    requires { (length body.now ≡ body_words) × (counts.blocks ≤ 512) }
    ensures { result ≡ all_below (block_holds (body_of body.now).blocks counts) counts.blocks }
{
    tables::blocks_hold(&body[0..STATEMENTS], counts)
}

pub fn statements_hold(types: u16, variants: u16, body: &[u16], counts: Counts) -> bool
    requires { (length body.now ≡ body_words) × (counts.statements ≤ 1024) }
    ensures { result ≡ all_below (statement_holds types variants (body_of body.now).statements counts) counts.statements }
{
    tables::statements_hold(types, variants, &body[STATEMENTS..LOCALS], counts)
}

pub fn locals_hold(types: u16, body: &[u16], counts: Counts) -> bool
    requires { (length body.now ≡ body_words) × (counts.locals ≤ 512) }
    ensures { result ≡ all_below (local_holds types (body_of body.now).locals) counts.locals }
{
    tables::locals_hold(types, &body[LOCALS..SCOPES], counts)
}

pub fn scopes_hold(body: &[u16], counts: Counts) -> bool
    requires { (length body.now ≡ body_words) × (counts.scopes ≤ 32) }
    ensures { result ≡ all_below (scope_holds (body_of body.now).scopes counts) counts.scopes }
{
    tables::scopes_hold(&body[SCOPES..ENTRIES], counts)
}

pub fn entries_hold(body: &[u16], counts: Counts) -> bool
    requires { (length body.now ≡ body_words) × (counts.entries ≤ 1024) }
    ensures { result ≡ all_below (entry_holds (body_of body.now).entries counts) counts.entries }
{
    tables::entries_hold(&body[ENTRIES..BODY_WORDS], counts)
}

// Every entry belongs to a scope.
pub fn entries_belong(body: &[u16], counts: Counts) -> bool
    requires { length body.now ≡ body_words }
    ensures { result ≡ entries_belong (body_of body.now).scopes counts }
{
    body_row_rules::rows::entries_belong(&body[SCOPES..ENTRIES], counts)
}
