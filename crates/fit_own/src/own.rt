// What a pattern's row says of the pattern itself, by its kind: it is not refused, and it has a test.
ghost use Rattle.std.specs.Prelude.{◌≡◌, length};
ghost use Rattle.image.specs.Tables.{binding_count};
ghost use Rattle.fit_own.specs.Rows.{tuple_taken, record_taken, tuple_struct_taken, slice_taken, own_taken, own_test, RowOf};

use super::parts::{
    ellipsis_within, fields_there, has_end, has_local, is_enum, kind_of, path_fails, path_taken,
    rest_taken, variant_taken,
};
use fit_shapes::fields::variant_fields;
use image::kinds::{PatKind, PathKind};
use image::rows::PatRow;
use image::{BindingId, Tables};

// A Tuple: its type is one, and its ellipsis is within.
fn tuple_taken(image: &[u8], tables: Tables, row: PatRow) -> bool
    requires { RowOf image.now tables row PatKind.Tuple }
    ensures { result ≡ tuple_taken image.now row }
{
    if kind_of(image, tables, row.ty) != 5 {
        return false;
    }
    ellipsis_within(row.c, row.b)
}

// A Record: its type has the variant, and the variant has the fields.
fn record_taken(image: &[u8], tables: Tables, row: PatRow) -> bool
    requires { RowOf image.now tables row PatKind.Record }
    ensures { result ≡ record_taken image.now row }
{
    if !variant_taken(image, tables, row.ty, row.c) {
        return false;
    }
    let fields = variant_fields(image, tables, row.ty, row.c);
    fields_there(image, tables, row.a, row.b, fields.count)
}

// A TupleStruct: its type has the variant, and its ellipsis is within.
fn tuple_struct_taken(image: &[u8], tables: Tables, row: PatRow) -> bool
    requires { RowOf image.now tables row PatKind.TupleStruct }
    ensures { result ≡ tuple_struct_taken image.now row }
{
    if !variant_taken(image, tables, row.ty, row.d) {
        return false;
    }
    ellipsis_within(row.c, row.b)
}

// A Slice: its type is an array or a slice, and its rest's binding has a local.
fn slice_taken(image: &[u8], tables: Tables, bindings: &[u16], row: PatRow) -> bool
    requires { RowOf image.now tables row PatKind.Slice × (length bindings.now ≡ binding_count image.now) }
    ensures { result ≡ slice_taken image.now bindings.now row }
{
    if kind_of(image, tables, row.ty) < 8 {
        return false;
    }
    rest_taken(image, tables, bindings, row.d)
}

// The pattern of this row is not refused.
pub fn own_taken(image: &[u8], tables: Tables, bindings: &[u16], row: PatRow, kind: PatKind) -> bool
    requires { RowOf image.now tables row kind × (length bindings.now ≡ binding_count image.now) }
    ensures { result ≡ own_taken image.now bindings.now kind row }
{
    match kind {
        PatKind::Wild => true,
        PatKind::Tuple => tuple_taken(image, tables, row),
        PatKind::Or => true,
        PatKind::Record => record_taken(image, tables, row),
        PatKind::Range => true,
        PatKind::Slice => slice_taken(image, tables, bindings, row),
        PatKind::Path => path_taken(image, tables, row.ty, PathKind::from(row.a), row.b),
        PatKind::Lit => true,
        PatKind::Bind => has_local(bindings, BindingId(row.a)),
        PatKind::TupleStruct => tuple_struct_taken(image, tables, row),
        PatKind::Ref => kind_of(image, tables, row.ty) == 7,
        _ => false,
    }
}

// It has a test.
pub fn own_test(image: &[u8], tables: Tables, row: PatRow, kind: PatKind) -> bool
    requires { RowOf image.now tables row kind }
    ensures { result ≡ own_test image.now kind row }
{
    match kind {
        PatKind::Record => is_enum(image, tables, row.ty),
        PatKind::Range => has_end(row.a, row.b),
        PatKind::Slice => kind_of(image, tables, row.ty) == 9,
        PatKind::Path => path_fails(image, tables, row.ty, PathKind::from(row.a)),
        PatKind::Lit => true,
        PatKind::TupleStruct => is_enum(image, tables, row.ty),
        _ => false,
    }
}
