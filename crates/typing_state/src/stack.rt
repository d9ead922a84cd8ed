// The parents whose parts are not all read, the last one on top.
ghost use Rattle.std.specs.Prelude.{◌≡◌, ◌+◌, ◌<◌, ◌≤◌, length};
ghost use Rattle.image.specs.Tables.{Whole};
ghost use Rattle.pattern_typing.specs.Downward.{wait_for, next_context, behind_next};
ghost use Rattle.type_parts.specs.Parts.{parts_of, context_of};
ghost use Rattle.typing_state.specs.Parents.{stack_of, Stacked};

use crate::tables::{store_waiting, waiting_at};
use image::Tables;
use part_contexts::part_context;
use type_parts::{PartContext, PartsRow};

// What the last part that is left is read at.
pub fn next_context(sheet: &[u8], tables: Tables, waiting: &[u16], depth: usize) -> PartContext
    requires { Whole sheet.now tables × (length waiting.now ≡ 114695) × (depth ≤ 16385) }
    ensures { context_of result ≡ next_context sheet.now (stack_of waiting.now depth) }
{
    if depth == 0 {
        return PartContext::Unseen;
    }
    let top = waiting_at(waiting, depth - 1);
    if top.left == 0 {
        return PartContext::Unseen;
    }
    part_context(sheet, tables, top.reads, top.left - 1)
}

// The stack without that part, and without a parent that has none left.
pub fn leave_part(waiting: &mut [u16], depth: usize) -> usize
    requires { (length waiting.old ≡ 114695) × (depth ≤ 16385) }
    ensures { Stacked waiting.new result (behind_next (stack_of waiting.old depth)) depth }
{
    if depth == 0 {
        return 0;
    }
    let top = waiting_at(waiting, depth - 1);
    if top.left <= 1 {
        return depth - 1;
    }
    store_waiting(waiting, depth - 1, top.reads, top.left - 1);
    depth
}

// A parent waits while parts of it are left.
pub fn wait_for(waiting: &mut [u16], depth: usize, reads: PartsRow, many: u16) -> usize
    requires { (length waiting.old ≡ 114695) × (depth < 16385) }
    ensures { Stacked waiting.new result (wait_for (parts_of reads) many (stack_of waiting.old depth)) (depth + 1) }
{
    if many == 0 {
        return depth;
    }
    store_waiting(waiting, depth, reads, many);
    depth + 1
}
