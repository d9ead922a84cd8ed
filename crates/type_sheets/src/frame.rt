// The frame of a sheet: the count of the bytes that follow, the version, the six counts and their limits.
ghost use Rattle.std.specs.Prelude.{◌≡◌};
ghost use Rattle.read_image.specs.Parts.{Begun};
ghost use Rattle.type_sheets.specs.Reading.{sheet_limits, sheet_frame_of};

use image::{Tables, tables_of, word_at};

fn within_sheet_limits(
    types: u16,
    variants: u16,
    patterns: u16,
    bindings: u16,
    list: u16,
    bytes: u16,
) -> bool
    ensures { result ≡ sheet_limits types variants patterns bindings list bytes }
{
    if 256 < types {
        return false;
    }
    if 512 < variants {
        return false;
    }
    if 512 < patterns {
        return false;
    }
    if 256 < bindings {
        return false;
    }
    if 2048 < list {
        return false;
    }
    bytes <= 16384
}

// The places of the tables, where the frame is whole and the tables fill the rest of it.
pub fn read_sheet_frame(sheet: &[u8]) -> Option<Tables>
    ensures { result ≡ sheet_frame_of sheet.now }
{
    if sheet.len() < 17 {
        return None;
    }
    let high = word_at(sheet, 0) as usize;
    let low = word_at(sheet, 2) as usize;
    if sheet.len() != 4 + (high * 65536 + low) {
        return None;
    }
    if sheet[4] != 1 {
        return None;
    }
    read_sheet_tables(sheet)
}

// The tables, behind the version.
fn read_sheet_tables(sheet: &[u8]) -> Option<Tables>
    requires { Begun sheet.now }
    ensures { result ≡ sheet_frame_of sheet.now }
{
    let tables = tables_of(sheet);
    let end = tables.bytes.at as usize;
    if sheet.len() < end {
        return None;
    }
    if sheet.len() - end != (tables.bytes.count as usize) {
        return None;
    }
    if !within_sheet_limits(
        tables.types.count,
        tables.variants.count,
        tables.patterns.count,
        tables.bindings.count,
        tables.list.count,
        tables.bytes.count,
    ) {
        return None;
    }
    Some(tables)
}
