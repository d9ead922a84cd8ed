// The frame of an image: the count of the bytes that follow, the version, the six counts and their limits.
ghost use Rattle.std.specs.Prelude.{◌≡◌};
ghost use Rattle.read_image.specs.Parts.{limits, Begun, frame_of};

use image::{Tables, tables_of, word_at};

fn within_limits(
    types: u16,
    variants: u16,
    patterns: u16,
    bindings: u16,
    list: u16,
    bytes: u16,
) -> bool
    ensures { result ≡ limits types variants patterns bindings list bytes }
{
    if 256 < types {
        return false;
    }
    if 512 < variants {
        return false;
    }
    if patterns < 1 {
        return false;
    }
    if 512 < patterns {
        return false;
    }
    if 256 < bindings {
        return false;
    }
    if 2048 < list {
        return false;
    }
    bytes <= 16384
}

// The places of the tables, where the frame is whole and the tables fill the rest of it.
pub fn read_frame(image: &[u8]) -> Option<Tables>
    ensures { result ≡ frame_of image.now }
{
    if image.len() < 17 {
        return None;
    }
    let high = word_at(image, 0) as usize;
    let low = word_at(image, 2) as usize;
    if image.len() != 4 + (high * 65536 + low) {
        return None;
    }
    if image[4] != 1 {
        return None;
    }
    read_tables(image)
}

// The tables, behind the version.
fn read_tables(image: &[u8]) -> Option<Tables>
    requires { Begun image.now }
    ensures { result ≡ frame_of image.now }
{
    let tables = tables_of(image);
    let end = tables.bytes.at as usize;
    if image.len() < end {
        return None;
    }
    if image.len() - end != (tables.bytes.count as usize) {
        return None;
    }
    if !within_limits(
        tables.types.count,
        tables.variants.count,
        tables.patterns.count,
        tables.bindings.count,
        tables.list.count,
        tables.bytes.count,
    ) {
        return None;
    }
    Some(tables)
}
