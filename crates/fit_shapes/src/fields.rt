// The types of the fields that arguments stand for, and the field numbers of a Record.
ghost use Rattle.std.specs.Prelude.{◌≡◌, true, map, ◌+◌, ◌*◌, ◌<◌, ◌≤◌};
ghost use Rattle.image.specs.Tables.{Whole, type_count, list_count};
ghost use Rattle.image.specs.Lists.{member};
ghost use Rattle.image.specs.Rules.{listed};
ghost use Rattle.image.specs.Patterns.{variant_or_absent};
ghost use Rattle.image.specs.Tree.{word?};
ghost use Rattle.image.specs.Types.{ty_of};
ghost use Rattle.image.specs.Valid.{valid};
ghost use Rattle.cases_spec.specs.Cases.{tuple_fields};
ghost use Rattle.meaning.specs.Typing.{adt_variants, variant_fields, field_type};
ghost use Rattle.meaning.specs.Fit.{record_fields_differ};
ghost use Rattle.fit_shapes.specs.Numbers.{Numbers, TypesAt, FieldsOf, stands_again};

use image::Tables;
use image::rows::{list_at, type_at, variant_at};

// Where the types of fields stand in the list.
#[derive(Clone, Copy)]
pub struct Fields {
    pub from: u16,
    pub count: u16,
}

// The fields of a tuple.
pub fn tuple_fields(image: &[u8], tables: Tables, t: u16) -> Fields
    requires { (valid image.now ≡ true) × Whole image.now tables × (t < type_count image.now) }
    ensures { FieldsOf image.now result (tuple_fields (ty_of image.now t).shape) }
{
    let row = type_at(image, tables, t);
    if row.kind != 5 {
        return Fields { from: 0, count: 0 };
    }
    Fields {
        from: row.a,
        count: row.b,
    }
}

// The ADT t has the variant v.
pub fn has_variant(image: &[u8], tables: Tables, t: u16, v: u16) -> bool
    requires { (valid image.now ≡ true) × Whole image.now tables × (t < type_count image.now) }
    ensures { result ≡ member v (adt_variants (ty_of image.now t).shape) }
{
    let row = type_at(image, tables, t);
    if row.kind != 6 {
        return false;
    }
    if v < row.a {
        return false;
    }
    v - row.a < row.b
}

// The fields of the variant v, where it is there and the ADT t has it.
pub fn variant_fields(image: &[u8], tables: Tables, t: u16, v: u16) -> Fields
    requires { (valid image.now ≡ true) × Whole image.now tables × (t < type_count image.now) × (variant_or_absent image.now v ≡ true) }
    ensures { FieldsOf image.now result (variant_fields image.now (ty_of image.now t).shape (word? v)) }
{
    if v == 65535 {
        return Fields { from: 0, count: 0 };
    }
    if !has_variant(image, tables, t, v) {
        return Fields { from: 0, count: 0 };
    }
    let row = variant_at(image, tables, v);
    Fields {
        from: row.fields,
        count: row.count,
    }
}

// The type of the field f, where it is there.
pub fn field_type(image: &[u8], tables: Tables, fields: Fields, f: u16) -> Option<u16>
    requires { Whole image.now tables × TypesAt image.now fields.from fields.count }
    ensures { Numbers image.now result (field_type (listed image.now 1 fields.from fields.count) (word? f)) }
{
    if fields.count <= f {
        return None;
    }
    Some(list_at(image, tables, fields.from + f))
}

// The field f stands among the `count` fields of a Record from `from` on.
fn stands_again(image: &[u8], tables: Tables, f: u16, from: u16, count: u16) -> bool
    requires { Whole image.now tables × (from + 2 * count ≤ list_count image.now) }
    ensures { result ≡ stands_again (word? f) (map word? (listed image.now 2 from count)) }
{
    if f == 65535 {
        return false;
    }
    for k in 0..count {
        if list_at(image, tables, from + 2 * k) == f {
            return true;
        }
    }
    false
}

// The fields of a Record that are there differ.
#[inline(never)] // its frame would stand in every turn of the fit
pub fn record_fields_differ(image: &[u8], tables: Tables, from: u16, count: u16) -> bool
    requires { Whole image.now tables × (from + 2 * count ≤ list_count image.now) }
    ensures { result ≡ record_fields_differ (map word? (listed image.now 2 from count)) }
{
    for k in 0..count {
        let i = from + 2 * k;
        let f = list_at(image, tables, i);
        if stands_again(image, tables, f, i + 2, count - k - 1) {
            return false;
        }
    }
    true
}
