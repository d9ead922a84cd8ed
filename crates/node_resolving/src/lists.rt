// Tuples, tuple structs, slices and records.
ghost use Rattle.std.specs.Prelude.{◌≡◌};
ghost use Rattle.image.specs.Tables.{Whole};
ghost use Rattle.name_tables.specs.Names.{as_variant, row_for};
ghost use Rattle.name_tables.specs.Tested.{NameBytesWithin};
ghost use Rattle.pattern_typing.specs.Crossing.{crossed, tuple_fields};
ghost use Rattle.pattern_typing.specs.Contexts.{argument_parts, item_parts};
ghost use Rattle.pattern_typing.specs.Making.{slice_made, or_absent};
ghost use Rattle.pattern_typing.specs.Resolving.{resolved_to, where_named, list_row, tuple_struct_as, record_as};
ghost use Rattle.node_rows.specs.Nodes.{number_in, name_in};
ghost use Rattle.name_resolving.specs.Gives.{Gives, GivesAlways, arguments_row};

use image::Tables;
use name_resolving::Resolution;
use name_resolving::lookup::look_up;
use name_resolving::rows::{made, refused_here};
use name_tables::NameUse;
use node_rows::NodeRow;
use type_crossing::{cross, tuple_fields, variant_fields};
use type_parts::{FieldRun, PartsRow};

// Arguments of these fields.
fn argument_parts(fields: FieldRun, node: NodeRow, mode: u16) -> PartsRow
    ensures { result ≡ arguments_row fields node mode }
{
    PartsRow {
        kind: 3,
        a: fields.start,
        b: fields.count,
        c: node.more,
        mode: mode,
        many: node.parts,
    }
}

pub fn resolve_tuple(sheet: &[u8], tables: Tables, node: NodeRow, t: u16, mode: u16) -> Resolution
    requires { Whole sheet.now tables }
    ensures { GivesAlways result node.parts (λ text. resolved_to (list_row 4 (crossed sheet.now t mode) (or_absent (number_in node.more)) 0) (argument_parts (tuple_fields sheet.now (crossed sheet.now t mode).ty) (crossed sheet.now t mode).mode (number_in node.more) node.parts)) }
{
    let c = cross(sheet, tables, t, mode);
    let making = made(8, node.parts, c.ty, c.derefs, 4, node.more, 0);
    let fields = tuple_fields(sheet, tables, c.ty);
    let reads = argument_parts(fields, node, c.mode);
    Resolution {
        refused: None,
        making: making,
        reads: reads,
    }
}

pub fn resolve_tuple_struct(
    sheet: &[u8],
    tables: Tables,
    names: &[u8],
    spelled: &[u8],
    node: NodeRow,
    t: u16,
    mode: u16,
) -> Resolution
    requires { Whole sheet.now tables × NameBytesWithin names.now }
    ensures { Gives spelled.now result node.parts (λ text. where_named names.now (row_for names.now as_variant (name_in spelled.now node).bytes) (name_in spelled.now node) (tuple_struct_as sheet.now (crossed sheet.now t mode) (number_in node.more) node.parts)) }
{
    let Some((kind, number)) = look_up(names, NameUse::Variant, spelled, node) else {
        return refused_here(node.parts, node.spot);
    };
    let c = cross(sheet, tables, t, mode);
    let making = made(8, node.parts, c.ty, c.derefs, 12, node.more, number);
    let fields = variant_fields(sheet, tables, c.ty, number);
    let reads = argument_parts(fields, node, c.mode);
    Resolution {
        refused: None,
        making: making,
        reads: reads,
    }
}

pub fn resolve_slice(sheet: &[u8], tables: Tables, node: NodeRow, t: u16, mode: u16) -> Resolution
    requires { Whole sheet.now tables }
    ensures { GivesAlways result node.parts (λ text. resolved_to (slice_made (crossed sheet.now t mode).ty (crossed sheet.now t mode).derefs (number_in node.more)) (item_parts (crossed sheet.now t mode).ty (crossed sheet.now t mode).mode (number_in node.more) node.parts)) }
{
    let c = cross(sheet, tables, t, mode);
    let making = made(9, node.parts, c.ty, c.derefs, node.more, 0, 0);
    let reads = PartsRow {
        kind: 4,
        a: c.ty,
        b: 0,
        c: node.more,
        mode: c.mode,
        many: node.parts,
    };
    Resolution {
        refused: None,
        making: making,
        reads: reads,
    }
}

pub fn resolve_record(
    sheet: &[u8],
    tables: Tables,
    names: &[u8],
    spelled: &[u8],
    node: NodeRow,
    t: u16,
    mode: u16,
) -> Resolution
    requires { Whole sheet.now tables × NameBytesWithin names.now }
    ensures { Gives spelled.now result node.parts (λ text. where_named names.now (row_for names.now as_variant (name_in spelled.now node).bytes) (name_in spelled.now node) (record_as (crossed sheet.now t mode))) }
{
    let Some((kind, number)) = look_up(names, NameUse::Variant, spelled, node) else {
        return refused_here(node.parts, node.spot);
    };
    let c = cross(sheet, tables, t, mode);
    let making = made(8, node.parts, c.ty, c.derefs, 6, number, 0);
    let reads = PartsRow {
        kind: 5,
        a: c.ty,
        b: number,
        c: 0,
        mode: c.mode,
        many: 0,
    };
    Resolution {
        refused: None,
        making: making,
        reads: reads,
    }
}
