// An image's first 17 bytes.
#![tactic(auto)]

ghost use Rattle.std.specs.Prelude.{◌≡◌, ◌<◌, length};
ghost use Rattle.row_tables.specs.Rows.{stored};
ghost use Rattle.image_head.specs.Heads.{WithinLimits, head_bytes};

use draft_tables::DraftCounts;
use image::Tables;
use image_pieces::{write_bytes, write_words};

// How many bytes follow, the version, and the six counts.
pub fn write_head(follow: usize, tables: Tables, counts: DraftCounts, image: &mut [u8])
    requires { (WithinLimits tables counts × (follow < 65536)) × (length image.old ≡ 34321) }
    ensures { image.new ≡ stored image.old 0 (head_bytes follow tables counts) }
{
    let follow_words = [(follow / 65536) as u16, (follow % 65536) as u16];
    let version_at = write_words(image, 0, &follow_words, 0, 2);
    let version = [1u8];
    let counts_at = write_bytes(image, version_at, &version, 0, 1);
    let count_words = [
        tables.types.count + counts.types,
        tables.variants.count,
        tables.patterns.count + counts.patterns,
        tables.bindings.count + counts.bindings,
        tables.list.count + counts.words,
        tables.bytes.count + counts.bytes,
    ];
    write_words(image, counts_at, &count_words, 0, 6);
}
