// The image of a sheet and of what a draft adds to it, written into lent bytes.
#![tactic(auto)]

ghost use Rattle.std.specs.Prelude.{◌≡◌, ◌+◌, ◌≤◌, length};
ghost use Rattle.image.specs.Tables.{Whole};
ghost use Rattle.row_tables.specs.Rows.{stored, AtMost};
ghost use Rattle.image_head.specs.Heads.{WithinLimits};
ghost use Rattle.image_writing.specs.Writing.{upper_tables, upper_end, lower_tables, image_end, ImageWritten};

use draft_tables::{BINDINGS, BYTES, DraftCounts, PATTERNS, WORDS};
use image::Tables;
use image_head::write_head;
use image_pieces::{write_bytes, write_data, write_part};

// The longest image: 17 + 10 * 256 + 6 * 512 + 14 * 512 + 4 * 256 + 2 * 2048 + 16384.
pub const IMAGE_BYTES: usize = 34321;

// Types, variants and patterns, from byte 17 on.
fn write_upper(
    sheet: &[u8],
    tables: Tables,
    draft: &[u16],
    counts: DraftCounts,
    image: &mut [u8],
) -> usize
    requires { (Whole sheet.now tables × WithinLimits tables counts) × ((length draft.now ≡ 40704) × (length image.old ≡ 34321)) }
    ensures { (result ≡ upper_end tables counts) × (image.new ≡ stored image.old 17 (upper_tables sheet.now tables draft.now counts)) }
{
    let types = 10 * (tables.types.count as usize);
    let added_types = 5 * (counts.types as usize);
    let variants = 6 * (tables.variants.count as usize);
    let patterns = 14 * (tables.patterns.count as usize);
    let added_patterns = 7 * (counts.patterns as usize);
    let types_at = tables.types.at as usize;
    let variants_at = tables.variants.at as usize;
    let patterns_at = tables.patterns.at as usize;
    let after_types = write_part(image, 17, sheet, types_at, types, draft, 0, added_types);
    let after_variants = write_bytes(image, after_types, sheet, variants_at, variants);
    write_part(
        image,
        after_variants,
        sheet,
        patterns_at,
        patterns,
        draft,
        PATTERNS,
        added_patterns,
    )
}

// Bindings, the list and the data, behind those.
fn write_lower(
    sheet: &[u8],
    tables: Tables,
    draft: &[u16],
    counts: DraftCounts,
    image: &mut [u8],
    at: usize,
) -> usize
    requires { ((Whole sheet.now tables × WithinLimits tables counts) × ((length draft.now ≡ 40704) × (length image.old ≡ 34321))) × ((at ≡ upper_end tables counts) × AtMost 255 draft.now 7936 counts.bytes) }
    ensures { (result ≡ image_end tables counts) × (image.new ≡ stored image.old at (lower_tables sheet.now tables draft.now counts)) }
{
    let bindings = 4 * (tables.bindings.count as usize);
    let added_bindings = 2 * (counts.bindings as usize);
    let list = 2 * (tables.list.count as usize);
    let added_words = counts.words as usize;
    let data = tables.bytes.count as usize;
    let added_bytes = counts.bytes as usize;
    let bindings_at = tables.bindings.at as usize;
    let list_at = tables.list.at as usize;
    let data_at = tables.bytes.at as usize;
    let next = write_part(
        image,
        at,
        sheet,
        bindings_at,
        bindings,
        draft,
        BINDINGS,
        added_bindings,
    );
    let after_list = write_part(image, next, sheet, list_at, list, draft, WORDS, added_words);
    let after_data = write_bytes(image, after_list, sheet, data_at, data);
    write_data(image, after_data, draft, BYTES, added_bytes)
}

// The image, from byte 0 on: its length.
pub fn write_image(
    sheet: &[u8],
    tables: Tables,
    draft: &[u16],
    counts: DraftCounts,
    image: &mut [u8; IMAGE_BYTES],
) -> usize
    requires { (Whole sheet.now tables × WithinLimits tables counts) × ((length draft.now ≡ 40704) × AtMost 255 draft.now 7936 counts.bytes) }
    ensures { ImageWritten sheet.now draft.now counts image.old result image.new }
{
    let middle = write_upper(sheet, tables, draft, counts, image);
    let end = write_lower(sheet, tables, draft, counts, image, middle);
    write_head(end - 4, tables, counts, image);
    end
}
