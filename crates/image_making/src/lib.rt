// The image of a sheet and of what is made of a text's nodes: added to a draft row after row, then written.
#![tactic(auto)]

ghost use Rattle.std.specs.Prelude.{◌≡◌, ◌≤◌, length};
ghost use Rattle.node_rows.specs.Makings.{makings_in};
ghost use Rattle.image_making.specs.Images.{ImageReady, draft_up, EmitsUp, MakesImage};

use draft_emitting::emit_one;
use draft_tables::DraftCounts;
use image::Tables;
use image_writing::{IMAGE_BYTES, write_image};

// The first n makings, added to an empty draft. None where a limit is passed.
fn emit_rows(
    sheet: &[u8],
    tables: Tables,
    text: &[u8],
    spelled: &[u8],
    makings: &[u16],
    n: usize,
    draft: &mut [u16],
) -> Option<DraftCounts>
    requires { ImageReady sheet.now tables (makings_in text.now spelled.now makings.now n) × ((length makings.now ≡ 196608) × ((n ≤ 16384) × (length draft.old ≡ 40704))) }
    ensures { EmitsUp spelled.now sheet.now tables (makings_in text.now spelled.now makings.now n) result draft.new }
{
    let mut counts = DraftCounts {
        types: 0,
        patterns: 0,
        bindings: 0,
        words: 0,
        bytes: 0,
        height: 0,
    };
    for i in 0..n {
        counts = emit_one(sheet, tables, text, spelled, makings, i, draft, counts)?;
    }
    Some(counts)
}

// The image of a sheet and the first n makings, whose names are `spelled`.
pub fn make_image(
    sheet: &[u8],
    tables: Tables,
    text: &[u8],
    spelled: &[u8],
    makings: &[u16],
    n: usize,
    draft: &mut [u16],
    image: &mut [u8; IMAGE_BYTES],
) -> Option<usize>
    requires { ImageReady sheet.now tables (makings_in text.now spelled.now makings.now n) × ((length makings.now ≡ 196608) × ((n ≤ 16384) × (length draft.old ≡ 40704))) }
    ensures { MakesImage sheet.now (draft_up sheet.now (makings_in text.now spelled.now makings.now n)) image.old result image.new }
{
    let counts = emit_rows(sheet, tables, text, spelled, makings, n, draft)?;
    Some(write_image(sheet, tables, draft, counts, image))
}
