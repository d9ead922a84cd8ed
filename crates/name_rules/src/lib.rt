// The rules of a name table, beside a sheet.
#![tactic(auto)]

ghost use Rattle.std.specs.Prelude.{◌≡◌, true, ◌+◌, ◌≤◌, length};
ghost use Rattle.image.specs.Lists.{all_below};
ghost use Rattle.image.specs.Tables.{Whole};
ghost use Rattle.name_tables.specs.Names.{row_count, name_bytes_at, name_frame_holds, name_row_at, name_row_holds, names_something, names_hold};
ghost use Rattle.name_tables.specs.Tested.{names_field, names_constant, row_holds};

use image::rows::{operand_at, variant_at};
use image::{Tables, word_at};
use name_tables::{NameRow, name_row_at};
use pattern_rules::operands::operand_holds;

// The bytes before the rows, the limits, and that rows and names fill the rest.
fn name_frame_holds(names: &[u8]) -> bool
    ensures { result ≡ name_frame_holds names.now }
{
    if names.len() < 9 {
        return false;
    }
    let high = word_at(names, 0) as usize;
    let low = word_at(names, 2) as usize;
    if names.len() != 4 + (high * 65536 + low) {
        return false;
    }
    if names[4] != 1 {
        return false;
    }
    let rows = word_at(names, 5);
    if 1024 < rows {
        return false;
    }
    let bytes = word_at(names, 7);
    if 16384 < bytes {
        return false;
    }
    names.len() == 9 + 10 * (rows as usize) + (bytes as usize)
}

// The variant has a field of this number.
fn names_field(sheet: &[u8], tables: Tables, owner: u16, number: u16) -> bool
    requires { Whole sheet.now tables }
    ensures { result ≡ names_field sheet.now owner number }
{
    if tables.variants.count <= owner {
        return false;
    }
    let variant = variant_at(sheet, tables, owner);
    number < variant.count
}

// A constant's operand stands at this word of the list.
fn names_constant(sheet: &[u8], tables: Tables, number: u16) -> bool
    requires { Whole sheet.now tables }
    ensures { result ≡ names_constant sheet.now number }
{
    if !operand_holds(sheet, tables, number) {
        return false;
    }
    let operand = operand_at(sheet, tables, number);
    operand.kind == 8
}

// What a row names is there.
fn names_something(sheet: &[u8], tables: Tables, row: NameRow) -> bool
    requires { Whole sheet.now tables }
    ensures { result ≡ names_something sheet.now row }
{
    let kind = row.kind;
    match kind {
        1 => row.number < tables.variants.count,
        2 => names_field(sheet, tables, row.owner, row.number),
        3 => names_constant(sheet, tables, row.number),
        _ => false,
    }
}

// A row's name lies among the bytes of names, and what it names is there.
fn name_row_holds(sheet: &[u8], tables: Tables, row: NameRow, bytes: u16) -> bool
    requires { Whole sheet.now tables }
    ensures { result ≡ row_holds sheet.now bytes row }
{
    if (bytes as u32) < (row.start as u32) + (row.count as u32) {
        return false;
    }
    names_something(sheet, tables, row)
}

// Every row.
fn name_rows_hold(sheet: &[u8], tables: Tables, names: &[u8]) -> bool
    requires { Whole sheet.now tables × (9 ≤ length names.now) × (name_bytes_at names.now ≤ length names.now) }
    ensures { result ≡ all_below (λ i. name_row_holds sheet.now names.now (name_row_at names.now i)) (row_count names.now) }
{
    let count = word_at(names, 5);
    let bytes = word_at(names, 7);
    for i in 0..count {
        if !name_row_holds(sheet, tables, name_row_at(names, i), bytes) {
            return false;
        }
    }
    true
}

// The name table keeps its rules beside a sheet.
pub fn names_hold(sheet: &[u8], tables: Tables, names: &[u8]) -> bool
    requires { Whole sheet.now tables }
    ensures { result ≡ names_hold sheet.now names.now }
{
    if !name_frame_holds(names) {
        return false;
    }
    name_rows_hold(sheet, tables, names)
}
