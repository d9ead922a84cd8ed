// Literals, ranges, references and alternatives.
ghost use Rattle.std.specs.Prelude.{eqb};
ghost use Rattle.image.specs.Tables.{Whole};
ghost use Rattle.name_tables.specs.Names.{as_constant, row_for};
ghost use Rattle.name_tables.specs.Tested.{NameBytesWithin};
ghost use Rattle.pattern_typing.specs.Crossing.{crossed};
ghost use Rattle.pattern_typing.specs.Contexts.{unseen_parts, same_parts, target_part};
ghost use Rattle.pattern_typing.specs.Making.{literal_made, operand_made, operand_named, range_made, reference_made, list_made, pattern_row};
ghost use Rattle.pattern_typing.specs.Resolving.{resolved_to, where_named};
ghost use Rattle.node_rows.specs.Nodes.{literal_in, name_in};
ghost use Rattle.name_resolving.specs.Gives.{Gives, GivesAlways};

use image::Tables;
use name_resolving::Resolution;
use name_resolving::lookup::look_up;
use name_resolving::rows::{literal_made, made, refused_here, same_parts, unseen_parts};
use name_tables::NameUse;
use node_rows::NodeRow;
use type_crossing::cross;
use type_parts::PartsRow;

// A literal, behind the references that are crossed.
pub fn resolve_literal(sheet: &[u8], tables: Tables, node: NodeRow, t: u16, mode: u16) -> Resolution
    requires { Whole sheet.now tables }
    ensures { GivesAlways result node.parts (λ text. resolved_to (literal_made (crossed sheet.now t mode).ty (crossed sheet.now t mode).derefs (literal_in text node.more node.from node.to)) unseen_parts) }
{
    let c = cross(sheet, tables, t, mode);
    let making = literal_made(2, node, c.ty, c.derefs);
    let reads = unseen_parts();
    Resolution {
        refused: None,
        making: making,
        reads: reads,
    }
}

// A range's bound that is a literal.
pub fn resolve_bound(node: NodeRow) -> Resolution
    ensures { GivesAlways result node.parts (λ text. resolved_to (operand_made (literal_in text node.more node.from node.to)) unseen_parts) }
{
    let making = literal_made(3, node, 0, 0);
    let reads = unseen_parts();
    Resolution {
        refused: None,
        making: making,
        reads: reads,
    }
}

// A range's bound that is a path: a constant.
pub fn resolve_bound_path(names: &[u8], spelled: &[u8], node: NodeRow) -> Resolution
    requires { NameBytesWithin names.now }
    ensures { Gives spelled.now result node.parts (λ text. where_named names.now (row_for names.now as_constant (name_in spelled.now node).bytes) (name_in spelled.now node) (λ number. resolved_to (operand_named number) unseen_parts)) }
{
    let Some((kind, number)) = look_up(names, NameUse::Constant, spelled, node) else {
        return refused_here(node.parts, node.spot);
    };
    let making = made(4, node.parts, 0, 0, number, 0, 0);
    let reads = unseen_parts();
    Resolution {
        refused: None,
        making: making,
        reads: reads,
    }
}

// A range, behind the references that are crossed; its bounds are read as it is.
pub fn resolve_range(sheet: &[u8], tables: Tables, node: NodeRow, t: u16, mode: u16) -> Resolution
    requires { Whole sheet.now tables }
    ensures { GivesAlways result node.parts (λ text. resolved_to (range_made (crossed sheet.now t mode).ty (crossed sheet.now t mode).derefs (eqb node.from 1) (eqb node.to 1) (eqb node.more 1)) (same_parts t mode)) }
{
    let c = cross(sheet, tables, t, mode);
    let making = made(5, node.parts, c.ty, c.derefs, node.from, node.to, node.more);
    let reads = same_parts(t, mode);
    Resolution {
        refused: None,
        making: making,
        reads: reads,
    }
}

// `&` or `&mut`.
pub fn resolve_reference(node: NodeRow, t: u16) -> Resolution
    ensures { GivesAlways result node.parts (λ text. resolved_to (reference_made t) (target_part (eqb node.more 1) t)) }
{
    let making = made(7, node.parts, t, 0, 0, 0, 0);
    let reads = PartsRow {
        kind: 2,
        a: t,
        b: node.more,
        c: 0,
        mode: 0,
        many: 0,
    };
    Resolution {
        refused: None,
        making: making,
        reads: reads,
    }
}

// Alternatives.
pub fn resolve_or(parts: u16, t: u16, mode: u16) -> Resolution
    ensures { GivesAlways result parts (λ text. resolved_to (list_made (pattern_row 5 t 0 0 0 0 0)) (same_parts t mode)) }
{
    let making = made(8, parts, t, 0, 5, 0, 0);
    let reads = same_parts(t, mode);
    Resolution {
        refused: None,
        making: making,
        reads: reads,
    }
}
