// Patterns that have a list of all their parts: Tuple, TupleStruct, Record and Or. Their words are the last of the stack.
#![tactic(auto)]

ghost use Rattle.std.specs.Prelude.{◌≡◌, ◌≤◌, ◌<◌, length};
ghost use Rattle.pattern_images.specs.Emitting.{with_list};
ghost use Rattle.draft_tables.specs.Layout.{height_is};
ghost use Rattle.draft_tables.specs.Room.{DraftRoom};
ghost use Rattle.draft_lists.specs.Lists.{ListStepped};

use draft_list_starts::list_start;
use draft_rows::put_pattern;
use draft_tables::{DraftCounts, push_list};
use image::Tables;
use image::rows::PatRow;

// The counts with another height.
pub fn at_height(c: DraftCounts, height: u16) -> DraftCounts
    ensures { result ≡ height_is height c }
{
    DraftCounts {
        height: height,
        ..c
    }
}

fn with_list(row: PatRow, from: u16, parts: u16) -> PatRow
    ensures { result ≡ with_list row from parts }
{
    PatRow {
        a: from,
        b: parts,
        ..row
    }
}

// A row with the list of its parts, whose words are so many. None where a limit is passed.
pub fn put_list(
    tables: Tables,
    draft: &mut [u16],
    c: DraftCounts,
    row: PatRow,
    parts: u16,
    many: u16,
) -> Option<DraftCounts>
    requires { (length draft.old ≡ 40704) × (DraftRoom tables c × ((c.height < 16384) × (many ≤ c.height))) }
    ensures { ListStepped tables draft.old c row parts many result draft.new }
{
    let next = tables.list.count + c.words;
    if 2048 < next + many {
        return None;
    }
    let base = c.height - many;
    let listed = push_list(draft, c, base, many);
    let whole = with_list(row, list_start(next, many), parts);
    put_pattern(tables, draft, at_height(listed, base), whole)
}
