// The rules on types, variants and bindings. Type numbers in the list are tested once each, by the runs of them.
#![tactic(auto)]

ghost use Rattle.std.specs.Prelude.{◌≡◌, cond, ◌+◌, ◌<◌, ◌≤◌, length, replicate};
ghost use Rattle.image.specs.Tables.{Whole, list_count};
ghost use Rattle.image.specs.Rules.{is_flag, in_table, types_listed, is_integer_size, adt_may_have, type_shape_holds, type_holds, variant_holds, binding_holds};
ghost use Rattle.type_rules.specs.Runs.{Runs};

use image::kinds::{AdtKind, TypeKind};
use image::rows::{TypeRow, binding_at, list_at, type_at, variant_at};
use image::{BindingId, Tables};

// A flag is never absent.
pub fn is_flag(word: u16) -> bool
    ensures { result ≡ is_flag word }
{
    word != 65535
}

// A range lies in its table.
pub fn in_table(from: u16, count: usize, table: u16) -> bool
    requires { count ≤ 131072 }
    ensures { result ≡ in_table from count table }
{
    (from as usize) + count <= (table as usize)
}

fn is_integer_size(size: u16) -> bool
    ensures { result ≡ is_integer_size size }
{
    match size {
        1 => true,
        2 => true,
        4 => true,
        8 => true,
        16 => true,
        _ => false,
    }
}

fn adt_may_have(kind: AdtKind, count: u16) -> bool
    ensures { result ≡ adt_may_have kind count }
{
    match kind {
        AdtKind::Struct => count == 1,
        AdtKind::Enum => {
            if count < 1 {
                return false;
            }
            count <= 64
        }
        AdtKind::Union => count == 1,
        AdtKind::Unknown => false,
    }
}

// One more than the run behind it where the word names a type, and 0 where not.
fn longer(names: bool, behind: u16) -> u16
    requires { behind < 65535 }
    ensures { result ≡ cond names (behind + 1) 0 }
{
    if names { behind + 1 } else { 0 }
}

// The runs of type numbers, from the list's end to its beginning, into a table of zeros.
pub fn type_runs(image: &[u8], tables: Tables, runs: &mut [u16])
    requires { Whole image.now tables × (list_count image.now ≤ 2048) × (runs.old ≡ replicate 2049 0) }
    ensures { Runs image.now runs.new }
{
    let types = tables.types.count;
    for i in (0..tables.list.count).rev() {
        let word = list_at(image, tables, i);
        let at = i as usize;
        runs[at] = longer(word < types, runs[at + 1]);
    }
}

// A range of the list that names types.
fn types_listed(image: &[u8], tables: Tables, runs: &[u16], from: u16, count: u16) -> bool
    requires { Whole image.now tables × Runs image.now runs.now }
    ensures { result ≡ types_listed image.now from count }
{
    if !in_table(from, count as usize, tables.list.count) {
        return false;
    }
    count <= runs[from as usize]
}

fn type_shape_holds(
    image: &[u8],
    tables: Tables,
    runs: &[u16],
    row: TypeRow,
    kind: TypeKind,
) -> bool
    requires { Whole image.now tables × Runs image.now runs.now }
    ensures { result ≡ type_shape_holds kind image.now row }
{
    match kind {
        TypeKind::Integer => {
            if !is_integer_size(row.a) {
                return false;
            }
            is_flag(row.b)
        }
        TypeKind::Bool => true,
        TypeKind::Char => true,
        TypeKind::Str => true,
        TypeKind::Tuple => types_listed(image, tables, runs, row.a, row.b),
        TypeKind::Adt => {
            if !in_table(row.a, row.b as usize, tables.variants.count) {
                return false;
            }
            adt_may_have(AdtKind::from(row.c), row.b)
        }
        TypeKind::Reference => row.a < tables.types.count,
        TypeKind::Array => {
            if tables.types.count <= row.a {
                return false;
            }
            row.b != 65535
        }
        TypeKind::Slice => row.a < tables.types.count,
        TypeKind::Unknown => false,
    }
}

// The type t.
pub fn type_holds(image: &[u8], tables: Tables, runs: &[u16], t: u16) -> bool
    requires { Whole image.now tables × Runs image.now runs.now × (t < tables.types.count) }
    ensures { result ≡ type_holds image.now t }
{
    let row = type_at(image, tables, t);
    if !is_flag(row.copy) {
        return false;
    }
    type_shape_holds(image, tables, runs, row, TypeKind::from(row.kind))
}

// The variant v.
pub fn variant_holds(image: &[u8], tables: Tables, runs: &[u16], v: u16) -> bool
    requires { Whole image.now tables × Runs image.now runs.now × (v < tables.variants.count) }
    ensures { result ≡ variant_holds image.now v }
{
    let row = variant_at(image, tables, v);
    if !types_listed(image, tables, runs, row.fields, row.count) {
        return false;
    }
    in_table(row.discriminant, 16, tables.bytes.count)
}

// The binding b.
pub fn binding_holds(image: &[u8], tables: Tables, b: BindingId) -> bool
    requires { Whole image.now tables × (b.0 < tables.bindings.count) }
    ensures { result ≡ binding_holds image.now b.0 }
{
    let row = binding_at(image, tables, b);
    if tables.types.count <= row.ty {
        return false;
    }
    is_flag(row.picked)
}
