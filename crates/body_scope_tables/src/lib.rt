// Scopes and their entries, in the lent table of a body: a leaf for each function on one of the two tables, which is handed its part.
#![tactic(auto)]

ghost use Rattle.std.specs.Prelude.{◌≡◌, ◌-◌, ◌<◌, ◌≤◌, length, get_or, set};
ghost use Rattle.row_tables.specs.Rows.{zeros, stored};
ghost use Rattle.mir.specs.Scopes.{new_scope, scopes_after, new_entry, entries_after};
ghost use Rattle.body_tables.specs.Layout.{body_words, body_of, with_scopes, with_entries};

use body_tables::{BODY_WORDS, ENTRIES, SCOPES};
use mir::Counts;
use place::LocalId;

// A new scope, with no entry. None where the limit is passed.
pub fn push_scope(body: &mut [u16], counts: Counts) -> Option<Counts>
    requires { length body.old ≡ body_words }
    ensures { (result ≡ new_scope counts) × (body_of body.new ≡ with_scopes (body_of body.old) (scopes_after counts (body_of body.old).scopes)) }
{
    mir::scopes::push_scope(&mut body[SCOPES..ENTRIES], counts)
}

// The word of a scope: how many entries there were when it was opened.
pub fn scope_word(body: &[u16], i: u16) -> u16
    requires { (length body.now ≡ body_words) × (i < 32) }
    ensures { result ≡ get_or (body_of body.now).scopes i 0 }
{
    body[SCOPES + (i as usize)]
}

// A word of a table.
fn set_word(table: &mut [u16], i: u16, word: u16)
    requires { i < length table.old }
    ensures { table.new ≡ set table.old i word }
{
    table[i as usize] = word;
}

// Zero in the place of a scope's word.
pub fn clear_scope(body: &mut [u16], i: u16)
    requires { (length body.old ≡ body_words) × (i < 32) }
    ensures { body_of body.new ≡ with_scopes (body_of body.old) (set (body_of body.old).scopes i 0) }
{
    set_word(&mut body[SCOPES..ENTRIES], i, 0);
}

// A local as the last entry of the last scope. None where the limit is passed.
pub fn push_entry(body: &mut [u16], counts: Counts, l: LocalId) -> Option<Counts>
    requires { length body.old ≡ body_words }
    ensures { (result ≡ new_entry counts) × (body_of body.new ≡ with_entries (body_of body.old) (entries_after counts (body_of body.old).entries l.0)) }
{
    mir::scopes::push_entry(&mut body[ENTRIES..BODY_WORDS], counts, l)
}

// The local of an entry.
pub fn entry_local(body: &[u16], i: u16) -> LocalId
    requires { (length body.now ≡ body_words) × (i < 1024) }
    ensures { result.0 ≡ get_or (body_of body.now).entries i 0 }
{
    LocalId(body[ENTRIES + (i as usize)])
}

// Zeros from `from` on, before `to`.
fn clear_between(table: &mut [u16], from: u16, to: u16)
    requires { (from ≤ to) × (to ≤ length table.old) }
    ensures { table.new ≡ stored table.old from (zeros (to - from)) }
{
    table[from as usize..to as usize].fill(0);
}

// Zeros in the place of the entries from `from` on, before `to`.
pub fn clear_entries(body: &mut [u16], from: u16, to: u16)
    requires { (length body.old ≡ body_words) × (from ≤ to) × (to ≤ 1024) }
    ensures { body_of body.new ≡ with_entries (body_of body.old) (stored (body_of body.old).entries from (zeros (to - from))) }
{
    clear_between(&mut body[ENTRIES..BODY_WORDS], from, to);
}
