// The type sheet that a pattern's text is read with: an image that may have no pattern. Every byte string is a sheet, whose tables' places are
// answered, or is refused.
#![tactic(auto)]

mod frame; // frame.rt: the bytes before the tables, and the limits

ghost use Rattle.std.specs.Prelude.{◌≡◌};
ghost use Rattle.type_sheets.specs.Reading.{sheet_of};

use frame::read_sheet_frame;
use image::Tables;
use image_marks::adts_apart;
use image_tables::patterns::patterns_hold;
use image_tables::tables_hold::rows_hold;

// The places of a sheet's tables, for every byte string: or it breaks a rule, and is refused.
pub fn read_sheet(sheet: &[u8]) -> Option<Tables>
    ensures { result ≡ sheet_of sheet.now }
{
    let tables = read_sheet_frame(sheet)?;
    if !rows_hold(sheet, tables) {
        return None;
    }
    if !adts_apart(sheet, tables) {
        return None;
    }
    if !patterns_hold(sheet, tables) {
        return None;
    }
    Some(tables)
}
