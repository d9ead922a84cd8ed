// The fields of a record.
ghost use Rattle.std.specs.Prelude.{◌≡◌};
ghost use Rattle.image.specs.Tables.{Whole};
ghost use Rattle.name_tables.specs.Tested.{NameBytesWithin};
ghost use Rattle.pattern_typing.specs.Resolving.{field_name, resolved_field};
ghost use Rattle.node_rows.specs.Nodes.{node_of};
ghost use Rattle.name_resolving.specs.Gives.{Gives};
ghost use Rattle.part_resolving.specs.Parts.{has_name, field_row};

use image::Tables;
use name_resolving::Resolution;
use name_resolving::lookup::look_up;
use name_resolving::rows::{made, refused_here};
use name_tables::NameUse;
use node_rows::NodeRow;
use type_crossing::variant_fields;
use type_parts::PartsRow;

// A node of this kind has a name.
#[tactic(auto, unfolding(crate::specs::Parts::has_name))]
fn has_name(kind: u16) -> bool
    ensures { result ≡ has_name kind }
{
    matches!(kind, 4 | 6 | 7 | 10 | 12 | 13)
}

// The node with its own name, and none for a node that has none.
fn field_row(node: NodeRow) -> NodeRow
    ensures { result ≡ field_row node }
{
    if has_name(node.kind) {
        return node;
    }
    NodeRow {
        kind: node.kind,
        at: node.at,
        parts: node.parts,
        more: node.more,
        spot: 0,
        from: 0,
        to: 0,
    }
}

// A field that the variant has in the table, and its pattern.
pub fn resolve_field(
    sheet: &[u8],
    tables: Tables,
    names: &[u8],
    spelled: &[u8],
    node: NodeRow,
    t: u16,
    v: u16,
    mode: u16,
) -> Resolution
    requires { Whole sheet.now tables × NameBytesWithin names.now }
    ensures { Gives spelled.now result node.parts (λ text. resolved_field sheet.now names.now (field_name (node_of text spelled.now node)) t v mode) }
{
    let key = field_row(node);
    let Some((kind, number)) = look_up(names, NameUse::FieldOf(v), spelled, key) else {
        return refused_here(node.parts, key.spot);
    };
    let fields = variant_fields(sheet, tables, t, v);
    let making = made(10, node.parts, 0, 0, number, 0, 0);
    let reads = PartsRow {
        kind: 6,
        a: fields.start,
        b: fields.count,
        c: number,
        mode: mode,
        many: 0,
    };
    Resolution {
        refused: None,
        making: making,
        reads: reads,
    }
}
