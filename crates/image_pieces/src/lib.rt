// Pieces of an image: bytes and words of a table, each to a place. Each function hands out the place behind what it wrote.
#![tactic(auto)]

ghost use Rattle.std.specs.Prelude.{◌≡◌, ◌+◌, ◌*◌, ◌≤◌, length, take, drop};
ghost use Rattle.row_tables.specs.Rows.{stored, AtMost};
ghost use Rattle.pattern_images.specs.Imaging.{words_bytes};
ghost use Rattle.image_pieces.specs.Pieces.{part_bytes};

// So many bytes of some, from one of them on.
pub fn write_bytes(image: &mut [u8], at: usize, source: &[u8], from: usize, many: usize) -> usize
    requires { (at + many ≤ length image.old) × (from + many ≤ length source.now) }
    ensures { (result ≡ at + many) × (image.new ≡ stored image.old at (take many (drop from source.now))) }
{
    image[at..at + many].copy_from_slice(&source[from..from + many]);
    at + many
}

// So many words of some, from one of them on, the high byte of each first.
pub fn write_words(image: &mut [u8], at: usize, source: &[u16], from: usize, many: usize) -> usize
    requires { (at + 2 * many ≤ length image.old) × (from + many ≤ length source.now) }
    ensures { (result ≡ at + 2 * many) × (image.new ≡ stored image.old at (words_bytes (take many (drop from source.now)))) }
{
    for i in 0..many {
        let word = source[from + i];
        image[at + 2 * i] = (word / 256) as u8;
        image[at + 2 * i + 1] = (word % 256) as u8;
    }
    at + 2 * many
}

// So many words of some that are bytes, from one of them on.
pub fn write_data(image: &mut [u8], at: usize, source: &[u16], from: usize, many: usize) -> usize
    requires { ((at + many ≤ length image.old) × (from + many ≤ length source.now)) × AtMost 255 source.now from many }
    ensures { (result ≡ at + many) × (image.new ≡ stored image.old at (take many (drop from source.now))) }
{
    for i in 0..many {
        image[at + i] = source[from + i] as u8;
    }
    at + many
}

// So many bytes of a sheet, and behind them so many words of a draft.
pub fn write_part(
    image: &mut [u8],
    at: usize,
    sheet: &[u8],
    from: usize,
    many: usize,
    draft: &[u16],
    first: usize,
    words: usize,
) -> usize
    requires { (at + many + 2 * words ≤ length image.old) × ((from + many ≤ length sheet.now) × (first + words ≤ length draft.now)) }
    ensures { (result ≡ at + many + 2 * words) × (image.new ≡ stored image.old at (part_bytes sheet.now from many draft.now first words)) }
{
    let added = 2 * words;
    let behind = at + many;
    write_bytes(image, at, sheet, from, many);
    write_words(image, behind, draft, first, words);
    at + many + added
}
