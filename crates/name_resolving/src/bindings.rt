// Names that are bound, and names that are paths.
ghost use Rattle.std.specs.Prelude.{◌≡◌};
ghost use Rattle.image.specs.Tables.{Whole};
ghost use Rattle.name_tables.specs.Names.{as_value, row_for};
ghost use Rattle.name_tables.specs.Tested.{NameBytesWithin};
ghost use Rattle.pattern_typing.specs.Resolving.{resolved_path};
ghost use Rattle.pattern_typing.specs.Crossing.{crossed};
ghost use Rattle.node_rows.specs.Nodes.{name_in};
ghost use Rattle.name_resolving.specs.Gives.{Gives, bind_resolution, path_word, path_resolution};

use crate::Resolution;
use crate::lookup::look_up;
use crate::rows::{made, refused_here, same_parts, unseen_parts};
use image::Tables;
use name_modes::{annotation_of, mode_of};
use name_tables::NameUse;
use node_rows::{MakingRow, NodeRow};
use type_crossing::cross;
use type_parts::CrossedType;

// A name that is bound at a type, or at an array where its element's type is no 65535.
pub fn binding(node: NodeRow, t: u16, mode: u16, element: u16, many: u16, copy: u16) -> Resolution
    ensures { result ≡ bind_resolution node t mode element many copy }
{
    let word = mode_of(node.more, mode);
    let annotation = annotation_of(node.more);
    let making = MakingRow {
        kind: 6,
        parts: node.parts,
        ty: t,
        derefs: 0,
        a: word,
        b: annotation,
        c: 0,
        from: node.from,
        to: node.to,
        element: element,
        many: many,
        copy: copy,
    };
    let reads = same_parts(t, mode);
    Resolution {
        refused: None,
        making: making,
        reads: reads,
    }
}

fn path_word(kind: u16) -> u16
    ensures { result ≡ path_word kind }
{
    if kind == 1 { 1 } else { 3 }
}

// A path to a variant or a constant, behind the references that are crossed.
pub fn path_made(parts: u16, c: CrossedType, kind: u16, number: u16) -> Resolution
    ensures { result ≡ path_resolution parts c kind number }
{
    let making = made(1, parts, c.ty, c.derefs, 9, path_word(kind), number);
    let reads = unseen_parts();
    Resolution {
        refused: None,
        making: making,
        reads: reads,
    }
}

// A path of two names or more.
pub fn resolve_path(
    sheet: &[u8],
    tables: Tables,
    names: &[u8],
    spelled: &[u8],
    node: NodeRow,
    t: u16,
    mode: u16,
) -> Resolution
    requires { Whole sheet.now tables × NameBytesWithin names.now }
    ensures { Gives spelled.now result node.parts (λ text. resolved_path names.now (row_for names.now as_value (name_in spelled.now node).bytes) (name_in spelled.now node) (crossed sheet.now t mode)) }
{
    let Some((kind, number)) = look_up(names, NameUse::Value, spelled, node) else {
        return refused_here(node.parts, node.spot);
    };
    path_made(node.parts, cross(sheet, tables, t, mode), kind, number)
}
