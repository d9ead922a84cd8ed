// Live marks: a local is live from the end of a block on, and the last scope holds it unless one does. A function stops at the first refusal and leaves the
// table as it then is; below the counts nothing is changed.
#![tactic(auto)]

ghost use Rattle.std.specs.Prelude.{◌≡◌, ◌<◌, cond, length};
ghost use Rattle.mir.specs.Scopes.{new_entry, entries_after};
ghost use Rattle.lower_spec.specs.Temps.{mark_live, push_storage_live_for_local, push_storage_live};
ghost use Rattle.body_tables.specs.Layout.{body_of, with_entries};
ghost use Rattle.body_tables.specs.Promises.{Adds};

use body_locals::{binding_local, is_held};
use body_scope_tables::push_entry;
use body_tables::BODY_WORDS;
use body_tables::statements::push_live;
use image::BindingId;
use mir::{BasicBlockId, Counts};
use place::LocalId;
use refusals::MirLowerError;

// A local that is held as it is, or another as the last entry of the last scope. None where the limit is passed.
fn record_unless(
    body: &mut [u16; BODY_WORDS],
    counts: Counts,
    l: LocalId,
    held: bool,
) -> Option<Counts>
    ensures { (result ≡ cond held (Some counts) (new_entry counts)) × (body_of body.new ≡ cond held (body_of body.old) (with_entries (body_of body.old) (entries_after counts (body_of body.old).entries l.0))) }
{
    if held {
        return Some(counts);
    }
    push_entry(body, counts, l)
}

// A local, held or not, live from the end of a block on; one that no scope holds is then the last entry of the last scope.
pub fn mark_live(
    body: &mut [u16; BODY_WORDS],
    counts: Counts,
    l: LocalId,
    block: BasicBlockId,
    held: bool,
) -> Result<Counts, MirLowerError>
    ensures { Adds (λ st. mark_live held st l block) counts (body_of body.old) result (body_of body.new) }
{
    if counts.scopes == 0 {
        return Err(MirLowerError::NoScope);
    }
    let c1 = record_unless(body, counts, l, held).ok_or(MirLowerError::Limit)?;
    let c2 = push_live(body, c1, block, l).ok_or(MirLowerError::Limit)?;
    Ok(c2)
}

// A local, live from the end of a block on: as the last entry of the last scope, unless an open scope holds it.
pub fn push_storage_live_for_local(
    body: &mut [u16; BODY_WORDS],
    counts: Counts,
    l: LocalId,
    block: BasicBlockId,
) -> Result<Counts, MirLowerError>
    ensures { Adds (λ st. push_storage_live_for_local st l block) counts (body_of body.old) result (body_of body.new) }
{
    let held = is_held(body, counts, l);
    mark_live(body, counts, l, block, held)
}

// A binding's local, live from the end of a block on.
pub fn push_storage_live(
    bindings: &[u16],
    body: &mut [u16; BODY_WORDS],
    counts: Counts,
    b: BindingId,
    block: BasicBlockId,
) -> Result<Counts, MirLowerError>
    requires { b.0 < length bindings.now }
    ensures { Adds (λ st. push_storage_live st bindings.now b.0 block) counts (body_of body.old) result (body_of body.new) }
{
    let l = binding_local(bindings, b)?;
    push_storage_live_for_local(body, counts, l, block)
}
