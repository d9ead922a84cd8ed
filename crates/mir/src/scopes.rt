// Drop scopes. A word of the scopes' table is the count of entries when the scope was opened; an entry is a local that leaves with its scope. The entries
// of a scope are those from its word on, up to the next scope's, or to the count.
ghost use Rattle.std.specs.Prelude.{◌≡◌, length};
ghost use Rattle.mir.specs.Scopes.{new_scope, scopes_after, new_entry, entries_after};

use super::Counts;
use place::LocalId;

// A new scope, with no entry. None where the limit is passed.
pub fn push_scope(scopes: &mut [u16], counts: Counts) -> Option<Counts>
    requires { length scopes.old ≡ 32 }
    ensures { (result ≡ new_scope counts) × (scopes.new ≡ scopes_after counts scopes.old) }
{
    let n = counts.scopes;
    if 32 <= n {
        return None;
    }
    let at = n as usize;
    scopes[at] = counts.entries;
    Some(Counts {
        scopes: n + 1,
        ..counts
    })
}

// A local as the last entry of the last scope. None where the limit is passed.
pub fn push_entry(entries: &mut [u16], counts: Counts, l: LocalId) -> Option<Counts>
    requires { length entries.old ≡ 1024 }
    ensures { (result ≡ new_entry counts) × (entries.new ≡ entries_after counts entries.old l.0) }
{
    let n = counts.entries;
    if 1024 <= n {
        return None;
    }
    let at = n as usize;
    entries[at] = l.0;
    Some(Counts {
        entries: n + 1,
        ..counts
    })
}
