// Literals and constants as operands: their bytes, as they lie in memory.
#![tactic(auto)]

ghost use Rattle.std.specs.Prelude.{◌≡◌, true, ◌+◌, ◌<◌, ◌≤◌, length, take, drop};
ghost use Rattle.image.specs.declared.kinds.OperandKind.{OperandKind};
ghost use Rattle.image.specs.Bytes.{little_endian};
ghost use Rattle.image.specs.Tables.{Whole, type_count};
ghost use Rattle.image.specs.Operands.{operand_holds};
ghost use Rattle.image.specs.Types.{ty_of, operand_of};
ghost use Rattle.image.specs.Valid.{valid};
ghost use Rattle.literals.specs.Literals.{constant_of, string_constant, integer_constant, lower_literal_to_operand, lower_const_to_operand, lower_literal_or_const_to_operand, operand_result};

use image::Tables;
use image::kinds::{OperandKind, TypeKind};
use image::rows::{operand_at, operand_bytes, type_at};
use mir::rvalues::Constant;
use refusals::MirLowerError;

// The number of `count` bytes from `at` on, the lowest first.
pub fn half(bytes: &[u8], at: usize, count: usize) -> u64
    requires { (at + count ≤ length bytes.now) × (count ≤ 8) }
    ensures { result ≡ little_endian (take count (drop at bytes.now)) }
{
    let mut value = 0u64;
    for i in (0..count).rev() {
        value = (bytes[at + i] as u64) + 256 * value;
    }
    value
}

// The first `count` bytes as a constant.
fn constant_of(ty: u16, bytes: &[u8], count: u16) -> Constant
    requires { (count ≤ length bytes.now) × (count ≤ 16) }
    ensures { result ≡ constant_of ty (take count bytes.now) }
{
    if count <= 8 {
        return Constant {
            count: count,
            ty: ty,
            offset: 0,
            low: half(bytes, 0, count as usize),
            high: 0,
        };
    }
    Constant {
        count: count,
        ty: ty,
        offset: 0,
        low: half(bytes, 0, 8),
        high: half(bytes, 8, (count - 8) as usize),
    }
}

fn string_constant(ty: u16, offset: u16, length: u64) -> Constant
    ensures { result ≡ string_constant ty offset length }
{
    Constant {
        count: 16,
        ty: ty,
        offset: offset,
        low: 0,
        high: length,
    }
}

// An integer's 16 bytes, cut to the size of its type.
fn integer_constant(
    image: &[u8],
    tables: Tables,
    ty: u16,
    bytes: &[u8],
) -> Result<Constant, MirLowerError>
    requires { (valid image.now ≡ true) × Whole image.now tables × (ty < type_count image.now) × (length bytes.now ≡ 16) }
    ensures { operand_result result ≡ integer_constant (ty_of image.now ty).shape ty bytes.now }
{
    let row = type_at(image, tables, ty);
    match TypeKind::from(row.kind) {
        TypeKind::Integer => Ok(constant_of(ty, bytes, row.a)),
        _ => Err(MirLowerError::NotSupported),
    }
}

// The literal whose operand begins at the word o of the list, at the type ty.
pub fn lower_literal_to_operand(
    image: &[u8],
    tables: Tables,
    ty: u16,
    o: u16,
) -> Result<Constant, MirLowerError>
    requires { (valid image.now ≡ true) × Whole image.now tables × (ty < type_count image.now) × (operand_holds image.now o ≡ true) }
    ensures { operand_result result ≡ lower_literal_to_operand image.now ty (operand_of image.now o) }
{
    let row = operand_at(image, tables, o);
    let bytes = operand_bytes(image, tables, row);
    match OperandKind::from(row.kind) {
        OperandKind::Int => integer_constant(image, tables, ty, bytes),
        OperandKind::Uint => integer_constant(image, tables, ty, bytes),
        OperandKind::Char => Ok(constant_of(ty, bytes, 4)),
        OperandKind::Bool => Ok(constant_of(ty, bytes, 1)),
        OperandKind::Str => Ok(string_constant(ty, row.offset, row.count as u64)),
        OperandKind::CStr => Ok(string_constant(ty, row.offset, (row.count as u64) + 1)),
        OperandKind::ByteStr => Ok(string_constant(ty, row.offset, row.count as u64)),
        _ => Err(MirLowerError::NotSupported),
    }
}

// The evaluated constant whose operand begins at the word o of the list, at the type ty.
pub fn lower_const_to_operand(image: &[u8], tables: Tables, ty: u16, o: u16) -> Constant
    requires { Whole image.now tables × (operand_holds image.now o ≡ true) × ((operand_of image.now o).kind ≡ OperandKind.Constant) }
    ensures { result ≡ lower_const_to_operand ty (operand_of image.now o) }
{
    let row = operand_at(image, tables, o);
    let bytes = operand_bytes(image, tables, row);
    constant_of(ty, bytes, row.count)
}

// A range's end at the type ty: a literal or an evaluated constant.
pub fn lower_literal_or_const_to_operand(
    image: &[u8],
    tables: Tables,
    ty: u16,
    o: u16,
) -> Result<Constant, MirLowerError>
    requires { (valid image.now ≡ true) × Whole image.now tables × (ty < type_count image.now) × (operand_holds image.now o ≡ true) }
    ensures { operand_result result ≡ lower_literal_or_const_to_operand image.now ty (operand_of image.now o) }
{
    let row = operand_at(image, tables, o);
    match OperandKind::from(row.kind) {
        OperandKind::Constant => Ok(lower_const_to_operand(image, tables, ty, o)),
        _ => lower_literal_to_operand(image, tables, ty, o),
    }
}
