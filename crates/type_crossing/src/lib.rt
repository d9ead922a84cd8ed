// References that are crossed with the default binding mode, and the fields of a type.
#![tactic(auto)]

ghost use Rattle.std.specs.Prelude.{◌≡◌};
ghost use Rattle.image.specs.Types.{is_set};
ghost use Rattle.image.specs.Tables.{Whole};
ghost use Rattle.pattern_typing.specs.Crossing.{behind_reference, crossed, tuple_fields, variant_fields_of, has_variant_of};
ghost use Rattle.type_parts.specs.Parts.{crossed_of, fields_of};

use image::Tables;
use type_parts::sheet::{type_in, variant_in};
use type_parts::{CrossedType, FieldRun};

// The default mode behind a reference with this copy flag.
fn behind_reference(copy: u16, mode: u16) -> u16
    ensures { result ≡ behind_reference (is_set copy) mode }
{
    if copy == 1 {
        return 1;
    }
    if mode == 1 {
        return 1;
    }
    2
}

// The type behind all references, of which a sheet has no more than 257 in a row unless they go round.
pub fn cross(sheet: &[u8], tables: Tables, t: u16, mode: u16) -> CrossedType
    requires { Whole sheet.now tables }
    ensures { crossed_of result ≡ crossed sheet.now t mode }
{
    let mut ty = t;
    let mut behind = mode;
    for derefs in 0..257 {
        let row = type_in(sheet, tables, ty);
        if row.kind != 7 {
            return CrossedType {
                ty,
                derefs,
                mode: behind,
            };
        }
        behind = behind_reference(row.copy, behind);
        ty = row.a;
    }
    CrossedType {
        ty,
        derefs: 257,
        mode: behind,
    }
}

// The fields of a tuple; of another type none.
pub fn tuple_fields(sheet: &[u8], tables: Tables, t: u16) -> FieldRun
    requires { Whole sheet.now tables }
    ensures { fields_of result ≡ tuple_fields sheet.now t }
{
    let row = type_in(sheet, tables, t);
    if row.kind != 5 {
        return FieldRun { start: 0, count: 0 };
    }
    FieldRun {
        start: row.a,
        count: row.b,
    }
}

// The type has the variant.
fn has_variant(sheet: &[u8], tables: Tables, t: u16, v: u16) -> bool
    requires { Whole sheet.now tables }
    ensures { result ≡ has_variant_of sheet.now t v }
{
    let row = type_in(sheet, tables, t);
    if row.kind != 6 {
        return false;
    }
    if v < row.a {
        return false;
    }
    (v as u32) < (row.a as u32) + (row.b as u32)
}

// The fields of a variant that the type has; of another none.
pub fn variant_fields(sheet: &[u8], tables: Tables, t: u16, v: u16) -> FieldRun
    requires { Whole sheet.now tables }
    ensures { fields_of result ≡ variant_fields_of sheet.now t v }
{
    if !has_variant(sheet, tables, t, v) {
        return FieldRun { start: 0, count: 0 };
    }
    let row = variant_in(sheet, tables, v);
    FieldRun {
        start: row.fields,
        count: row.count,
    }
}
