// Reads an image: every byte string is an image, whose tables' places are answered, or is refused.
#![tactic(auto)]

pub mod frame; // frame.rt: the bytes before the tables, and the limits

ghost use Rattle.read_image.specs.Read.{Reads};

use frame::read_frame;
use image::Tables;
use image_marks::adts_apart;
use image_tables::patterns::patterns_hold;
use image_tables::tables_hold::rows_hold;

// The places of an image's tables, for every byte string: or it breaks a rule, and is refused.
pub fn read_image(image: &[u8]) -> Option<Tables>
    ensures { Reads image.now result }
{
    let tables = read_frame(image)?;
    if !rows_hold(image, tables) {
        return None;
    }
    if !adts_apart(image, tables) {
        return None;
    }
    if !patterns_hold(image, tables) {
        return None;
    }
    Some(tables)
}
