// What a script hands to the calls on patterns besides the body: the bindings' locals and 35 words. Word 0 is the place's local, 1 its count of elements, 2 to 33 are its 16
// elements of two words as docs/BODY.md has them in a row, and 34 is how many of the bindings' words are handed in.
use place::{LocalId, Place};

// An element by its two words, the low half first.
fn element(low: u16, high: u16) -> u32 {
    (low as u32) + 65536 * (high as u32)
}

// The place. A count above 16 is handed in as it stands.
pub fn place_of(handed: &[u16; 35]) -> Place {
    Place {
        local: LocalId(handed[0]),
        len: handed[1],
        elems: [
            element(handed[2], handed[3]),
            element(handed[4], handed[5]),
            element(handed[6], handed[7]),
            element(handed[8], handed[9]),
            element(handed[10], handed[11]),
            element(handed[12], handed[13]),
            element(handed[14], handed[15]),
            element(handed[16], handed[17]),
            element(handed[18], handed[19]),
            element(handed[20], handed[21]),
            element(handed[22], handed[23]),
            element(handed[24], handed[25]),
            element(handed[26], handed[27]),
            element(handed[28], handed[29]),
            element(handed[30], handed[31]),
            element(handed[32], handed[33]),
        ],
    }
}

// How many of the bindings' words are handed in.
pub fn binding_words(handed: &[u16; 35]) -> u16 {
    handed[34]
}
