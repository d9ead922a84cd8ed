// The rules on operands, and on numbers that may be absent.
ghost use Rattle.std.specs.Prelude.{◌≡◌, ◌<◌, length};
ghost use Rattle.image.specs.Bytes.{little_endian};
ghost use Rattle.image.specs.Tables.{Whole};
ghost use Rattle.image.specs.Operands.{operand_value_holds, operand_holds};
ghost use Rattle.image.specs.Patterns.{variant_or_absent, operand_or_absent};

use image::Tables;
use image::kinds::OperandKind;
use image::rows::{operand_at, operand_bytes};
use scalar_values::is_scalar_value;

// Four bytes as a number, the lowest first.
fn little_endian4(bytes: &[u8]) -> u32
    requires { length bytes.now ≡ 4 }
    ensures { result ≡ little_endian bytes.now }
{
    (bytes[0] as u32)
        + 256 * ((bytes[1] as u32) + 256 * ((bytes[2] as u32) + 256 * (bytes[3] as u32)))
}

pub fn is_char(bytes: &[u8]) -> bool
    ensures { result ≡ operand_value_holds OperandKind.Char bytes.now }
{
    if bytes.len() != 4 {
        return false;
    }
    is_scalar_value(little_endian4(bytes))
}

pub fn is_bool(bytes: &[u8]) -> bool
    ensures { result ≡ operand_value_holds OperandKind.Bool bytes.now }
{
    if bytes.len() != 1 {
        return false;
    }
    bytes[0] <= 1
}

fn is_constant(bytes: &[u8]) -> bool
    ensures { result ≡ operand_value_holds OperandKind.Constant bytes.now }
{
    if bytes.len() < 1 {
        return false;
    }
    bytes.len() <= 16
}

fn operand_value_holds(kind: OperandKind, bytes: &[u8]) -> bool
    ensures { result ≡ operand_value_holds kind bytes.now }
{
    match kind {
        OperandKind::Int => bytes.len() == 16,
        OperandKind::Uint => bytes.len() == 16,
        OperandKind::Char => is_char(bytes),
        OperandKind::Bool => is_bool(bytes),
        OperandKind::Constant => is_constant(bytes),
        OperandKind::Unknown => false,
        _ => true,
    }
}

// The operand that begins at the word o of the list.
pub fn operand_holds(image: &[u8], tables: Tables, o: u16) -> bool
    requires { Whole image.now tables }
    ensures { result ≡ operand_holds image.now o }
{
    if (tables.list.count as usize) < (o as usize) + 3 {
        return false;
    }
    let row = operand_at(image, tables, o);
    if (tables.bytes.count as usize) < (row.offset as usize) + (row.count as usize) {
        return false;
    }
    operand_value_holds(
        OperandKind::from(row.kind),
        operand_bytes(image, tables, row),
    )
}

pub fn operand_or_absent(image: &[u8], tables: Tables, o: u16) -> bool
    requires { Whole image.now tables }
    ensures { result ≡ operand_or_absent image.now o }
{
    if o == 65535 {
        return true;
    }
    operand_holds(image, tables, o)
}

pub fn variant_or_absent(image: &[u8], tables: Tables, v: u16) -> bool
    requires { Whole image.now tables }
    ensures { result ≡ variant_or_absent image.now v }
{
    if v == 65535 {
        return true;
    }
    v < tables.variants.count
}
