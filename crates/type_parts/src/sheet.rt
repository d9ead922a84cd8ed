// The rows of a sheet, for every number: what lies past its end is 0.
ghost use Rattle.std.specs.Prelude.{◌≡◌, ◌+◌, ◌<◌};
ghost use Rattle.image.specs.Bytes.{word_at};
ghost use Rattle.image.specs.Rows.{type_at, variant_at, list_at};
ghost use Rattle.image.specs.Tables.{Whole};

use image::Tables;
use image::rows::{TypeRow, VariantRow};
use text_chars::byte_of;

// The big-endian word that begins at a byte.
fn sheet_word(sheet: &[u8], at: usize) -> u16
    requires { at < 9223372036854775808 }
    ensures { result ≡ word_at sheet.now at }
{
    (byte_of(sheet, at) as u16) * 256 + (byte_of(sheet, at + 1) as u16)
}

// The type t.
pub fn type_in(sheet: &[u8], tables: Tables, t: u16) -> TypeRow
    requires { Whole sheet.now tables }
    ensures { result ≡ type_at sheet.now t }
{
    let at = (tables.types.at as usize) + 10 * (t as usize);
    TypeRow {
        kind: sheet_word(sheet, at),
        a: sheet_word(sheet, at + 2),
        b: sheet_word(sheet, at + 4),
        c: sheet_word(sheet, at + 6),
        copy: sheet_word(sheet, at + 8),
    }
}

// The variant v.
pub fn variant_in(sheet: &[u8], tables: Tables, v: u16) -> VariantRow
    requires { Whole sheet.now tables }
    ensures { result ≡ variant_at sheet.now v }
{
    let at = (tables.variants.at as usize) + 6 * (v as usize);
    VariantRow {
        fields: sheet_word(sheet, at),
        count: sheet_word(sheet, at + 2),
        discriminant: sheet_word(sheet, at + 4),
    }
}

// The word i of the list.
pub fn listed_in(sheet: &[u8], tables: Tables, i: u32) -> u16
    requires { Whole sheet.now tables }
    ensures { result ≡ list_at sheet.now i }
{
    sheet_word(sheet, (tables.list.at as usize) + 2 * (i as usize))
}
