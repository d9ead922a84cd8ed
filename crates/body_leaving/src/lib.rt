// Locals leave their scopes, on a body in one table: one by one, and those of entries in a row.
#![tactic(auto)]

ghost use Rattle.std.specs.Prelude.{◌≡◌, ◌-◌, ◌<◌, ◌≤◌};
ghost use Rattle.image.specs.Tables.{Whole};
ghost use Rattle.drop_scopes_spec.specs.Dropping.{is_copy, mark_dead, emit_drop_and_storage_dead, leave_all, last_first};
ghost use Rattle.drop_scopes_spec.specs.Promises.{EntriesNamed};
ghost use Rattle.body_tables.specs.Layout.{body_of};
ghost use Rattle.body_leaving.specs.Promises.{Leaves};

use body_scope_tables::entry_local;
use body_tables::BODY_WORDS;
use body_tables::blocks::set_terminator;
use body_tables::locals::local_word;
use body_tables::statements::push_dead;
use image::Tables;
use image::rows::type_at;
use mir::blocks::{Terminator, new_basic_block};
use mir::{BasicBlockId, Counts};
use place::LocalId;
use refusals::MirLowerError;

// The word of a local's type says a copy type.
fn is_copy(image: &[u8], tables: Tables, word: u16) -> bool
    requires { Whole image.now tables }
    ensures { result ≡ is_copy image.now word }
{
    if tables.types.count <= word {
        return true;
    }
    type_at(image, tables, word).copy == 1
}

// A local is dead from the end of a block on.
fn mark_dead(
    body: &mut [u16; BODY_WORDS],
    counts: Counts,
    block: BasicBlockId,
    l: LocalId,
) -> Result<(Counts, BasicBlockId), MirLowerError>
    requires { block.0 < counts.blocks }
    ensures { Leaves (λ st. mark_dead st block l) counts block (body_of body.old) result (body_of body.new) }
{
    let c1 = push_dead(body, counts, block, l).ok_or(MirLowerError::Limit)?;
    Ok((c1, block))
}

// A local leaves: one that is not copy is dropped, and a new block goes on; then it is dead there. The counts, and the block that goes on.
fn emit_drop_and_storage_dead(
    image: &[u8],
    tables: Tables,
    body: &mut [u16; BODY_WORDS],
    counts: Counts,
    block: BasicBlockId,
    l: LocalId,
) -> Result<(Counts, BasicBlockId), MirLowerError>
    requires whole { Whole image.now tables }
    requires locals_bound { (counts.locals ≤ 512) × (block.0 < counts.blocks) × (l.0 < counts.locals) }
    ensures { Leaves (λ st. emit_drop_and_storage_dead image.now st block l) counts block (body_of body.old) result (body_of body.new) }
{
    let word = local_word(body, l);
    if is_copy(image, tables, word) {
        return mark_dead(body, counts, block, l);
    }
    let (c1, next) = new_basic_block(counts).ok_or(MirLowerError::Limit)?;
    set_terminator(body, block, Terminator::Drop(l, next));
    mark_dead(body, c1, next, l)
}

// The locals of the entries from `start` on, before `end`, leave, the last first. The counts, and the block that goes on.
pub fn emit_drop_and_storage_dead_for_scope(
    image: &[u8],
    tables: Tables,
    body: &mut [u16; BODY_WORDS],
    counts: Counts,
    block: BasicBlockId,
    start: u16,
    end: u16,
) -> Result<(Counts, BasicBlockId), MirLowerError>
    requires whole { Whole image.now tables }
    requires locals_bound { (counts.locals ≤ 512) × (block.0 < counts.blocks) × (start ≤ end) × (end ≤ counts.entries) × (counts.entries ≤ 1024) × EntriesNamed (body_of body.old).entries counts }
    ensures { Leaves (λ st. leave_all image.now st block (last_first (body_of body.old).entries start (end - start))) counts block (body_of body.old) result (body_of body.new) }
{
    let mut c = counts;
    let mut at = block;
    for i in (start..end).rev() {
        let l = entry_local(body, i);
        (c, at) = emit_drop_and_storage_dead(image, tables, body, c, at, l)?;
    }
    Ok((c, at))
}
