// Slices: their list is their items without the rest, which they hold beside it.
#![tactic(auto)]

ghost use Rattle.std.specs.Prelude.{◌≡◌, true, ◌≤◌, ◌<◌, length};
ghost use Rattle.std.proofs.Math.Option.{some};
ghost use Rattle.pattern_syntax.specs.Formed.{rest_within};
ghost use Rattle.pattern_typing.specs.Making.{slice_made};
ghost use Rattle.node_rows.specs.Nodes.{number_in};
ghost use Rattle.draft_tables.specs.Room.{DraftRoom};
ghost use Rattle.draft_tables.specs.Steps.{SheetsStepped};
ghost use Rattle.draft_rows.specs.Nodes.{node_step};

use draft_list_starts::list_start;
use draft_lists::{at_height, put_list};
use draft_rows::put_pattern;
use draft_tables::{DraftCounts, push_list, stack_word};
use image::Tables;
use image::rows::PatRow;

// A Slice whose items have a rest behind so many of them: the others are its list, "prefix and then suffix". None where a limit is passed.
fn put_rest_slice(
    tables: Tables,
    draft: &mut [u16],
    c: DraftCounts,
    ty: u16,
    derefs: u16,
    before: u16,
    parts: u16,
) -> Option<DraftCounts>
    requires { (length draft.old ≡ 40704) × (DraftRoom tables c × ((c.height < 16384) × ((parts ≤ c.height) × (before < parts)))) }
    ensures { SheetsStepped tables draft.old c (node_step (slice_made ty derefs (some before)) parts) result draft.new }
{
    let next = tables.list.count + c.words;
    let many = parts - 1;
    if 2048 < next + many {
        return None;
    }
    let base = c.height - parts;
    let rest = stack_word(draft, base + before);
    let suffix = many - before;
    let first = push_list(draft, c, base, before);
    let listed = push_list(draft, first, base + before + 1, suffix);
    let row = PatRow {
        kind: 8,
        ty: ty,
        derefs: derefs,
        a: list_start(next, many),
        b: before,
        c: suffix,
        d: rest,
    };
    put_pattern(tables, draft, at_height(listed, base), row)
}

// A Slice: how many of its items stand before its rest, or 65535. None where a limit is passed.
pub fn put_slice(
    tables: Tables,
    draft: &mut [u16],
    c: DraftCounts,
    ty: u16,
    derefs: u16,
    before: u16,
    parts: u16,
) -> Option<DraftCounts>
    requires { (length draft.old ≡ 40704) × (DraftRoom tables c × ((c.height < 16384) × ((parts ≤ c.height) × (rest_within (number_in before) parts ≡ true)))) }
    ensures { SheetsStepped tables draft.old c (node_step (slice_made ty derefs (number_in before)) parts) result draft.new }
{
    if before != 65535 {
        return put_rest_slice(tables, draft, c, ty, derefs, before, parts);
    }
    let row = PatRow {
        kind: 8,
        ty: ty,
        derefs: derefs,
        a: 0,
        b: 0,
        c: 0,
        d: 65535,
    };
    put_list(tables, draft, c, row, parts, parts)
}
