// The rules on the rows of patterns, but for those on subpatterns' numbers.
ghost use Rattle.std.specs.Prelude.{◌≡◌, ◌<◌};
ghost use Rattle.image.specs.Tables.{Whole};
ghost use Rattle.image.specs.Patterns.{path_holds, pattern_shape_holds, pattern_holds};

use super::operands::{operand_holds, operand_or_absent, variant_or_absent};
use image::kinds::{PatKind, PathKind};
use image::rows::{PatRow, operand_at, pat_at};
use image::{PatId, Tables};
use type_rules::{in_table, is_flag};

fn constant_holds(image: &[u8], tables: Tables, o: u16) -> bool
    requires { Whole image.now tables }
    ensures { result ≡ path_holds PathKind.Constant image.now o }
{
    if !operand_holds(image, tables, o) {
        return false;
    }
    let row = operand_at(image, tables, o);
    row.kind == 8
}

fn path_holds(image: &[u8], tables: Tables, kind: PathKind, b: u16) -> bool
    requires { Whole image.now tables }
    ensures { result ≡ path_holds kind image.now b }
{
    match kind {
        PathKind::Unresolved => true,
        PathKind::Variant => b < tables.variants.count,
        PathKind::Local => b < tables.bindings.count,
        PathKind::Constant => constant_holds(image, tables, b),
        PathKind::Other => true,
        PathKind::Unknown => false,
    }
}

fn record_holds(image: &[u8], tables: Tables, row: PatRow) -> bool
    requires { Whole image.now tables }
    ensures { result ≡ pattern_shape_holds PatKind.Record image.now row }
{
    if !in_table(row.a, 2 * (row.b as usize), tables.list.count) {
        return false;
    }
    variant_or_absent(image, tables, row.c)
}

fn range_holds(image: &[u8], tables: Tables, row: PatRow) -> bool
    requires { Whole image.now tables }
    ensures { result ≡ pattern_shape_holds PatKind.Range image.now row }
{
    if !operand_or_absent(image, tables, row.a) {
        return false;
    }
    if !operand_or_absent(image, tables, row.b) {
        return false;
    }
    is_flag(row.c)
}

fn bind_holds(image: &[u8], tables: Tables, row: PatRow) -> bool
    requires { Whole image.now tables }
    ensures { result ≡ pattern_shape_holds PatKind.Bind image.now row }
{
    if tables.bindings.count <= row.a {
        return false;
    }
    if 2 < row.c {
        return false;
    }
    row.d <= 2
}

fn tuple_struct_holds(image: &[u8], tables: Tables, row: PatRow) -> bool
    requires { Whole image.now tables }
    ensures { result ≡ pattern_shape_holds PatKind.TupleStruct image.now row }
{
    if !in_table(row.a, row.b as usize, tables.list.count) {
        return false;
    }
    variant_or_absent(image, tables, row.d)
}

fn pattern_shape_holds(image: &[u8], tables: Tables, row: PatRow, kind: PatKind) -> bool
    requires { Whole image.now tables }
    ensures { result ≡ pattern_shape_holds kind image.now row }
{
    match kind {
        PatKind::Tuple => in_table(row.a, row.b as usize, tables.list.count),
        PatKind::Or => in_table(row.a, row.b as usize, tables.list.count),
        PatKind::Record => record_holds(image, tables, row),
        PatKind::Range => range_holds(image, tables, row),
        PatKind::Slice => in_table(
            row.a,
            (row.b as usize) + (row.c as usize),
            tables.list.count,
        ),
        PatKind::Path => path_holds(image, tables, PathKind::from(row.a), row.b),
        PatKind::Lit => operand_holds(image, tables, row.a),
        PatKind::Bind => bind_holds(image, tables, row),
        PatKind::TupleStruct => tuple_struct_holds(image, tables, row),
        PatKind::Unknown => false,
        _ => true,
    }
}

// The pattern p.
pub fn pattern_holds(image: &[u8], tables: Tables, p: PatId) -> bool
    requires { Whole image.now tables × (p.0 < tables.patterns.count) }
    ensures { result ≡ pattern_holds image.now p.0 }
{
    let row = pat_at(image, tables, p);
    if tables.types.count <= row.ty {
        return false;
    }
    if 16 < row.derefs {
        return false;
    }
    pattern_shape_holds(image, tables, row, PatKind::from(row.kind))
}
