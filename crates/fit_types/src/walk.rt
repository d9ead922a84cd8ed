// The test of a pattern at a place, down to its subpatterns, whose numbers are smaller.
ghost use Rattle.std.specs.Prelude.{◌≡◌, true, map, ◌+◌, ◌<◌, ltb};
ghost use Rattle.image.specs.Tables.{Whole, pattern_count};
ghost use Rattle.image.specs.Lists.{all_in};
ghost use Rattle.image.specs.Rules.{listed};
ghost use Rattle.image.specs.Subpatterns.{if_present};
ghost use Rattle.image.specs.Tree.{tree, tree?, word?};
ghost use Rattle.image.specs.Valid.{valid};
ghost use Rattle.meaning.specs.Fit.{types_fit, types_fit?, row_fits, by_fields_fit, items_all_fit, each_fits};
ghost use Rattle.fit_shapes.specs.Numbers.{type_number, names_type?, TypesAt};
ghost use Rattle.fit_types.specs.Parts.{fitting_at, parts_fit, Parent, Node, Items, Pairs};

use fit_literals::operands::{ends_fit, literal_fits};
use fit_shapes::fields::{Fields, field_type, record_fields_differ, tuple_fields, variant_fields};
use fit_shapes::places::{element_type, referent_of, type_is_the_places};
use fit_shapes::slices::{items_fit, rest_fits};
use fit_variants::discriminants::discriminants_differ;
use fit_variants::paths::path_fits;
use image::kinds::{PatKind, PathKind};
use image::rows::{PatRow, list_at, pat_at};
use image::{PatId, Tables};

// Arguments in a row, each on the type that stands at its place from `types` on.
#[cycle(fit)]
fn each_fits(image: &[u8], tables: Tables, p: PatId, at: u16, count: u16, types: u16) -> bool
    requires { Parent image.now tables p.0 × Items image.now p.0 at count × TypesAt image.now types count }
    ensures { result ≡ each_fits (fitting_at image.now 1 at count) (listed image.now 1 types count) }
{
    for k in 0..count {
        let q = list_at(image, tables, at + k);
        let ty = list_at(image, tables, types + k);
        if !types_fit(image, tables, Some(ty), PatId(q)) {
            return false;
        }
    }
    true
}

// Arguments in a row, with an ellipsis that may be absent, on fields.
#[cycle(fit)]
fn row_fits(
    image: &[u8],
    tables: Tables,
    p: PatId,
    at: u16,
    count: u16,
    ellipsis: u16,
    fields: Fields,
) -> bool
    requires { Parent image.now tables p.0 × Items image.now p.0 at count × TypesAt image.now fields.from fields.count }
    ensures { result ≡ row_fits (word? ellipsis) (fitting_at image.now 1 at count) (listed image.now 1 fields.from fields.count) }
{
    if ellipsis == 65535 {
        if count != fields.count {
            return false;
        }
        return each_fits(image, tables, p, at, count, fields.from);
    }
    if fields.count < count {
        return false;
    }
    if count <= ellipsis {
        return each_fits(image, tables, p, at, count, fields.from);
    }
    if !each_fits(image, tables, p, at, ellipsis, fields.from) {
        return false;
    }
    let behind = count - ellipsis;
    let skipped = fields.count - behind;
    each_fits(
        image,
        tables,
        p,
        at + ellipsis,
        behind,
        fields.from + skipped,
    )
}

// The fields of a Record, each on its own type.
#[cycle(fit)]
fn fields_fit(image: &[u8], tables: Tables, p: PatId, at: u16, count: u16, fields: Fields) -> bool
    requires { Parent image.now tables p.0 × Pairs image.now p.0 at count × TypesAt image.now fields.from fields.count }
    ensures { result ≡ by_fields_fit (map word? (listed image.now 2 at count)) (fitting_at image.now 2 (at + 1) count) (listed image.now 1 fields.from fields.count) }
{
    for k in 0..count {
        let i = at + 2 * k;
        let f = list_at(image, tables, i);
        let q = list_at(image, tables, i + 1);
        let ty = field_type(image, tables, fields, f);
        if !types_fit(image, tables, ty, PatId(q)) {
            return false;
        }
    }
    true
}

// Items, all on one type.
#[cycle(fit)]
fn items_all_fit(
    image: &[u8],
    tables: Tables,
    p: PatId,
    at: u16,
    count: u16,
    place: Option<u16>,
) -> bool
    requires { Parent image.now tables p.0 × Items image.now p.0 at count × (names_type? image.now (type_number place) ≡ true) }
    ensures { result ≡ items_all_fit (fitting_at image.now 1 at count) (type_number place) }
{
    for i in at..at + count {
        let q = list_at(image, tables, i);
        if !types_fit(image, tables, place, PatId(q)) {
            return false;
        }
    }
    true
}

// A subpattern that may be absent, on a place of this type. Where it is absent the word q is 65535.
#[cycle(fit)]
fn sub_fits(image: &[u8], tables: Tables, p: PatId, q: u16, place: Option<u16>) -> bool
    requires { Parent image.now tables p.0 × (all_in (λ s. ltb s p.0) (if_present q) ≡ true) × (names_type? image.now (type_number place) ≡ true) }
    ensures { result ≡ types_fit? image.now (tree? (tree image.now) q) (type_number place) }
{
    if q == 65535 {
        return true;
    }
    types_fit(image, tables, place, PatId(q))
}

// A Record: its fields differ, its enum's discriminants too, and each field fits.
#[cycle(fit)]
fn record_fits(image: &[u8], tables: Tables, p: PatId, row: PatRow) -> bool
    requires { Node image.now tables p.0 row PatKind.Record }
    ensures { result ≡ parts_fit image.now PatKind.Record row }
{
    if !record_fields_differ(image, tables, row.a, row.b) {
        return false;
    }
    if !discriminants_differ(image, tables, row.ty) {
        return false;
    }
    let fields = variant_fields(image, tables, row.ty, row.c);
    fields_fit(image, tables, p, row.a, row.b, fields)
}

// A TupleStruct: its enum's discriminants differ, and its arguments fit.
#[cycle(fit)]
fn tuple_struct_fits(image: &[u8], tables: Tables, p: PatId, row: PatRow) -> bool
    requires { Node image.now tables p.0 row PatKind.TupleStruct }
    ensures { result ≡ parts_fit image.now PatKind.TupleStruct row }
{
    if !discriminants_differ(image, tables, row.ty) {
        return false;
    }
    let fields = variant_fields(image, tables, row.ty, row.d);
    row_fits(image, tables, p, row.a, row.b, row.c, fields)
}

// A Slice: the count of its items, its rest, its prefix and its suffix.
#[cycle(fit)]
fn slice_fits(image: &[u8], tables: Tables, p: PatId, row: PatRow) -> bool
    requires { Node image.now tables p.0 row PatKind.Slice }
    ensures { result ≡ parts_fit image.now PatKind.Slice row }
{
    if !items_fit(image, tables, row.ty, row.d, row.b + row.c) {
        return false;
    }
    if !rest_fits(image, tables, row.d) {
        return false;
    }
    let element = element_type(image, tables, row.ty);
    if !items_all_fit(image, tables, p, row.a, row.b, element) {
        return false;
    }
    items_all_fit(image, tables, p, row.a + row.b, row.c, element)
}

// What the pattern p asks besides its own type, by its kind.
#[cycle(fit)]
fn parts_fit(image: &[u8], tables: Tables, p: PatId, row: PatRow, kind: PatKind) -> bool
    requires { Node image.now tables p.0 row kind }
    ensures { result ≡ parts_fit image.now kind row }
{
    let ty = row.ty;
    match kind {
        PatKind::Tuple => {
            let fields = tuple_fields(image, tables, ty);
            row_fits(image, tables, p, row.a, row.b, row.c, fields)
        }
        PatKind::Or => items_all_fit(image, tables, p, row.a, row.b, Some(ty)),
        PatKind::Record => record_fits(image, tables, p, row),
        PatKind::Range => ends_fit(image, tables, ty, row.a, row.b),
        PatKind::Slice => slice_fits(image, tables, p, row),
        PatKind::Path => path_fits(image, tables, ty, PathKind::from(row.a), row.b),
        PatKind::Lit => literal_fits(image, tables, ty, row.a),
        PatKind::Bind => sub_fits(image, tables, p, row.b, Some(ty)),
        PatKind::TupleStruct => tuple_struct_fits(image, tables, p, row),
        PatKind::Ref => {
            let behind = referent_of(image, tables, ty);
            types_fit(image, tables, behind, PatId(row.a))
        }
        _ => true,
    }
}

// The pattern p, on a place of this type.
#[cycle(fit)]
pub fn types_fit(image: &[u8], tables: Tables, place: Option<u16>, p: PatId) -> bool
    requires { (valid image.now ≡ true) × Whole image.now tables × (p.0 < pattern_count image.now) × (names_type? image.now (type_number place) ≡ true) }
    ensures { result ≡ types_fit image.now (tree image.now p.0) (type_number place) }
{
    let row = pat_at(image, tables, p);
    if !type_is_the_places(image, tables, row, place) {
        return false;
    }
    parts_fit(image, tables, p, row, PatKind::from(row.kind))
}
