// Drop scopes on a body in one table: they are opened, their locals leave, and they are closed.
#![tactic(auto)]

ghost use Rattle.std.specs.Prelude.{◌≡◌, cond, ◌<◌, ◌≤◌, ltb, length, get_or};
ghost use Rattle.image.specs.Tables.{Whole};
ghost use Rattle.drop_scopes_spec.specs.Dropping.{drop_until_scope, pop_and_drop};
ghost use Rattle.drop_scopes_spec.specs.Promises.{Pops, EntriesNamed, ScopesNamed};
ghost use Rattle.body_tables.specs.Layout.{body_words, body_of};
ghost use Rattle.body_leaving.specs.Promises.{Leaves};
ghost use Rattle.body_scopes.specs.Promises.{Opens, Closes, Closed};

use body_leaving::emit_drop_and_storage_dead_for_scope;
use body_scope_tables::{clear_entries, clear_scope, push_scope, scope_word};
use body_tables::BODY_WORDS;
use image::Tables;
use mir::{BasicBlockId, Counts};
use refusals::MirLowerError;

// A new scope, with no entry.
pub fn push_drop_scope(
    body: &mut [u16; BODY_WORDS],
    counts: Counts,
) -> Result<Counts, MirLowerError>
    ensures { Opens counts (body_of body.old) result (body_of body.new) }
{
    push_scope(body, counts).ok_or(MirLowerError::Limit)
}

// Where the entries of the scope i begin; those of a scope that there is not would begin behind the last.
fn scope_start(body: &[u16], counts: Counts, i: u16) -> u16
    requires { (length body.now ≡ body_words) × (counts.scopes ≤ 32) }
    ensures { result ≡ cond (ltb i counts.scopes) (get_or (body_of body.now).scopes i 0) counts.entries }
{
    if i < counts.scopes {
        return scope_word(body, i);
    }
    counts.entries
}

// The locals of the scope i and of those opened after it leave, and the scopes stay open.
pub fn drop_until_scope(
    image: &[u8],
    tables: Tables,
    body: &mut [u16; BODY_WORDS],
    counts: Counts,
    i: u16,
    block: BasicBlockId,
) -> Result<(Counts, BasicBlockId), MirLowerError>
    requires whole { Whole image.now tables × (counts.locals ≤ 512) × (counts.scopes ≤ 32) × (counts.entries ≤ 1024) × (block.0 < counts.blocks) }
    requires entries_named { EntriesNamed (body_of body.old).entries counts × ScopesNamed (body_of body.old).scopes counts }
    ensures { Leaves (λ st. drop_until_scope image.now st i block) counts block (body_of body.old) result (body_of body.new) }
{
    if counts.scopes < i {
        return Err(MirLowerError::NoScope);
    }
    let start = scope_start(body, counts, i);
    emit_drop_and_storage_dead_for_scope(image, tables, body, counts, block, start, counts.entries)
}

// Without the last scope and its entries.
fn pop_scope(body: &mut [u16; BODY_WORDS], counts: Counts) -> Counts
    requires { (0 < counts.scopes) × (counts.scopes ≤ 32) × (counts.entries ≤ 1024) × ScopesNamed (body_of body.old).scopes counts }
    ensures { Closed counts (body_of body.old) result (body_of body.new) }
{
    let last = counts.scopes - 1;
    let start = scope_word(body, last);
    clear_scope(body, last);
    clear_entries(body, start, counts.entries);
    Counts {
        scopes: last,
        entries: start,
        ..counts
    }
}

// The last scope is closed, its locals having left before.
pub fn pop_assume_dropped(
    body: &mut [u16; BODY_WORDS],
    counts: Counts,
) -> Result<Counts, MirLowerError>
    requires { (counts.scopes ≤ 32) × (counts.entries ≤ 1024) × ScopesNamed (body_of body.old).scopes counts }
    ensures { Closes counts (body_of body.old) result (body_of body.new) }
{
    if counts.scopes == 0 {
        return Err(MirLowerError::NoScope);
    }
    Ok(pop_scope(body, counts))
}

// The last scope is closed, and its locals leave.
pub fn pop_and_drop(
    image: &[u8],
    tables: Tables,
    body: &mut [u16; BODY_WORDS],
    counts: Counts,
    block: BasicBlockId,
) -> Result<(Counts, BasicBlockId), MirLowerError>
    requires whole { Whole image.now tables × (counts.locals ≤ 512) × (counts.scopes ≤ 32) × (counts.entries ≤ 1024) × (block.0 < counts.blocks) }
    requires entries_named { EntriesNamed (body_of body.old).entries counts × ScopesNamed (body_of body.old).scopes counts }
    ensures { Pops (λ st. pop_and_drop image.now st block) counts block (body_of body.old) result (body_of body.new) }
{
    if counts.scopes == 0 {
        return Err(MirLowerError::NoScope);
    }
    let start = scope_word(body, counts.scopes - 1);
    let (c1, b1) = emit_drop_and_storage_dead_for_scope(
        image,
        tables,
        body,
        counts,
        block,
        start,
        counts.entries,
    )?;
    Ok((pop_scope(body, c1), b1))
}
