// Literals, evaluated constants and range ends, at a type.
ghost use Rattle.std.specs.Prelude.{◌≡◌, true, ◌&&◌, ◌||◌, ◌<◌};
ghost use Rattle.image.specs.Tables.{Whole, type_count};
ghost use Rattle.image.specs.Operands.{operand_holds};
ghost use Rattle.image.specs.Patterns.{operand_or_absent};
ghost use Rattle.image.specs.Tree.{operand?};
ghost use Rattle.image.specs.Types.{shape_by, ty_of, operand_of};
ghost use Rattle.image.specs.Valid.{valid};
ghost use Rattle.meaning.specs.Fit.{refers_to_str, constant_fits, literal_fits, end_fits, end_fits?, is_there};

use super::integers::integer_fits;
use image::Tables;
use image::kinds::{OperandKind, TypeKind};
use image::rows::{TypeRow, operand_at, operand_bytes, type_at};
use pattern_rules::operands::{is_bool, is_char};

// Bytes that are as many as the type of a row has, and a value of it.
pub fn bytes_fit(image: &[u8], row: TypeRow, kind: TypeKind, bytes: &[u8]) -> bool
    ensures { result ≡ constant_fits (shape_by kind image.now row) bytes.now }
{
    match kind {
        TypeKind::Integer => bytes.len() == (row.a as usize),
        TypeKind::Bool => is_bool(bytes),
        TypeKind::Char => is_char(bytes),
        _ => false,
    }
}

// A reference to str.
fn refers_to_str(image: &[u8], tables: Tables, ty: u16) -> bool
    requires { (valid image.now ≡ true) × Whole image.now tables × (ty < type_count image.now) }
    ensures { result ≡ refers_to_str image.now (ty_of image.now ty).shape }
{
    let row = type_at(image, tables, ty);
    if row.kind != 7 {
        return false;
    }
    type_at(image, tables, row.a).kind == 4
}

// The literal whose operand begins at the word o of the list, at the type ty.
pub fn literal_fits(image: &[u8], tables: Tables, ty: u16, o: u16) -> bool
    requires { (valid image.now ≡ true) × Whole image.now tables × (ty < type_count image.now) × (operand_holds image.now o ≡ true) }
    ensures { result ≡ literal_fits (operand_of image.now o).kind image.now (ty_of image.now ty).shape (operand_of image.now o).bytes }
{
    let row = type_at(image, tables, ty);
    let kind = TypeKind::from(row.kind);
    let operand = operand_at(image, tables, o);
    let bytes = operand_bytes(image, tables, operand);
    match OperandKind::from(operand.kind) {
        OperandKind::Int | OperandKind::Uint => {
            integer_fits(image, row, kind, operand.kind == 1, bytes)
        }
        OperandKind::Char => row.kind == 3,
        OperandKind::Bool => row.kind == 2,
        OperandKind::Str => refers_to_str(image, tables, ty),
        _ => false,
    }
}

// The evaluated constant whose operand begins at the word o of the list, at the type ty.
pub fn constant_fits(image: &[u8], tables: Tables, ty: u16, o: u16) -> bool
    requires { Whole image.now tables × (ty < type_count image.now) × (operand_holds image.now o ≡ true) }
    ensures { result ≡ constant_fits (ty_of image.now ty).shape (operand_of image.now o).bytes }
{
    let row = type_at(image, tables, ty);
    let operand = operand_at(image, tables, o);
    bytes_fit(
        image,
        row,
        TypeKind::from(row.kind),
        operand_bytes(image, tables, operand),
    )
}

// The same, of an integer or a char.
fn constant_end_fits(image: &[u8], tables: Tables, ty: u16, o: u16) -> bool
    requires { (valid image.now ≡ true) × Whole image.now tables × (ty < type_count image.now) × (operand_holds image.now o ≡ true) }
    ensures { result ≡ end_fits OperandKind.Constant (ty_of image.now ty).shape (operand_of image.now o).bytes }
{
    if !constant_fits(image, tables, ty, o) {
        return false;
    }
    let row = type_at(image, tables, ty);
    if row.kind == 1 {
        return true;
    }
    row.kind == 3
}

// The range end whose operand begins at the word o of the list, at the type ty.
fn end_fits(image: &[u8], tables: Tables, ty: u16, o: u16) -> bool
    requires { (valid image.now ≡ true) × Whole image.now tables × (ty < type_count image.now) × (operand_holds image.now o ≡ true) }
    ensures { result ≡ end_fits (operand_of image.now o).kind (ty_of image.now ty).shape (operand_of image.now o).bytes }
{
    let operand = operand_at(image, tables, o);
    match OperandKind::from(operand.kind) {
        OperandKind::Int => literal_fits(image, tables, ty, o),
        OperandKind::Uint => literal_fits(image, tables, ty, o),
        OperandKind::Char => literal_fits(image, tables, ty, o),
        OperandKind::Constant => constant_end_fits(image, tables, ty, o),
        _ => false,
    }
}

// A range end that may be absent.
fn end_or_absent_fits(image: &[u8], tables: Tables, ty: u16, o: u16) -> bool
    requires { (valid image.now ≡ true) × Whole image.now tables × (ty < type_count image.now) × (operand_or_absent image.now o ≡ true) }
    ensures { result ≡ end_fits? (ty_of image.now ty).shape (operand? image.now o) }
{
    if o == 65535 {
        return true;
    }
    end_fits(image, tables, ty, o)
}

// The ends of a range, of which one is there, at the type ty.
pub fn ends_fit(image: &[u8], tables: Tables, ty: u16, start: u16, end: u16) -> bool
    requires { (valid image.now ≡ true) × Whole image.now tables × (ty < type_count image.now) × (operand_or_absent image.now start ≡ true) × (operand_or_absent image.now end ≡ true) }
    ensures { result ≡ (is_there (operand? image.now start) || is_there (operand? image.now end)) && end_fits? (ty_of image.now ty).shape (operand? image.now start) && end_fits? (ty_of image.now ty).shape (operand? image.now end) }
{
    if start == 65535 {
        if end == 65535 {
            return false;
        }
        return end_fits(image, tables, ty, end);
    }
    if !end_fits(image, tables, ty, start) {
        return false;
    }
    end_or_absent_fits(image, tables, ty, end)
}
