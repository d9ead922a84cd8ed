// The patterns that have no subpattern, by their kinds.
ghost use Rattle.std.specs.Prelude.{◌≡◌, true, ◌<◌, length};
ghost use Rattle.image.specs.Tables.{Whole, type_count, binding_count};
ghost use Rattle.image.specs.Kinds.{pat_kind};
ghost use Rattle.image.specs.Patterns.{path_holds, pattern_shape_holds};
ghost use Rattle.image.specs.Valid.{valid};
ghost use Rattle.pattern_walk_spec.specs.Answers.{Begins, Lowers};
ghost use Rattle.pattern_nodes.specs.Leaves.{is_leaf, path_leaf, leaf_pattern};
ghost use Rattle.pattern_leaves.specs.Modes.{other_path};
ghost use Rattle.body_tables.specs.Layout.{body_of};
ghost use Rattle.state.specs.Promises.{Ready};

use body_tables::BODY_WORDS;
use image::kinds::{PatKind, PathKind};
use image::rows::PatRow;
use image::{BindingId, PatId, Tables};
use mir::{BasicBlockId, Counts};
use pattern_matching::{MatchingMode, is_check};
use pattern_parts::bindings::local_path;
use pattern_ranges::pattern_match_range;
use pattern_tests::consts::{constant_path, pattern_match_lit};
use pattern_walk_spec::Lowered;
use place::Place;
use refusals::MirLowerError;

// A pattern of this kind has no subpattern; a path is told by what it names, and one that names a variant is none.
pub fn is_leaf(kind: PatKind, path: PathKind) -> bool
    ensures { result ≡ is_leaf kind path }
{
    match kind {
        PatKind::Tuple
        | PatKind::Or
        | PatKind::Record
        | PatKind::Slice
        | PatKind::Bind
        | PatKind::TupleStruct
        | PatKind::Ref => false,
        PatKind::Path => match path {
            PathKind::Variant => false,
            _ => true,
        },
        _ => true,
    }
}

// A path of the type ty that names no variant: its word b is a binding or an operand.
fn path_leaf(
    image: &[u8],
    tables: Tables,
    bindings: &[u16],
    body: &mut [u16; BODY_WORDS],
    counts: Counts,
    mode: MatchingMode,
    p: PatId,
    ty: u16,
    kind: PathKind,
    b: u16,
    current: BasicBlockId,
    els: Option<BasicBlockId>,
    place: Place,
) -> Lowered
    requires whole { Whole image.now tables × (path_holds kind image.now b ≡ true) × (length bindings.now ≡ binding_count image.now) }
    requires ready { Ready (body_of body.old) counts × Begins counts current els }
    ensures { Lowers (λ ctx. path_leaf kind image.now bindings.now p.0 ty b mode ctx current els place) counts current els (body_of body.old) result (body_of body.new) }
{
    match kind {
        PathKind::Unresolved => Err((MirLowerError::UnresolvedName, p)),
        PathKind::Variant => Err((MirLowerError::IncompletePattern, p)),
        PathKind::Local => local_path(
            bindings,
            body,
            counts,
            mode,
            p,
            BindingId(b),
            current,
            els,
            place,
        ),
        PathKind::Constant => constant_path(
            image, tables, body, counts, mode, p, ty, b, current, els, place,
        ),
        _ => other_path(counts, mode, p, current, els),
    }
}

// A path that names something else is refused in Check.
fn other_path(
    counts: Counts,
    mode: MatchingMode,
    p: PatId,
    current: BasicBlockId,
    els: Option<BasicBlockId>,
) -> Lowered
    ensures { result ≡ other_path counts mode p current els }
{
    if is_check(mode) {
        return Err((MirLowerError::NotSupported, p));
    }
    Ok((counts, current, els))
}

// The pattern p, whose row is given, at a place behind its derefs.
pub fn pattern_match_leaf(
    image: &[u8],
    tables: Tables,
    bindings: &[u16],
    body: &mut [u16; BODY_WORDS],
    counts: Counts,
    mode: MatchingMode,
    p: PatId,
    row: PatRow,
    current: BasicBlockId,
    els: Option<BasicBlockId>,
    place: Place,
) -> Lowered
    requires image_value { (valid image.now ≡ true) × Whole image.now tables × (row.ty < type_count image.now) × (pattern_shape_holds (pat_kind row.kind) image.now row ≡ true) × (length bindings.now ≡ binding_count image.now) }
    requires ready { Ready (body_of body.old) counts × Begins counts current els }
    ensures { Lowers (λ ctx. leaf_pattern (pat_kind row.kind) image.now bindings.now p.0 row mode ctx current els place) counts current els (body_of body.old) result (body_of body.new) }
{
    match PatKind::from(row.kind) {
        PatKind::Wild => Ok((counts, current, els)),
        PatKind::Range => pattern_match_range(
            image, tables, body, counts, mode, p, row.ty, row.a, row.b, row.c, current, els, place,
        ),
        PatKind::Path => path_leaf(
            image,
            tables,
            bindings,
            body,
            counts,
            mode,
            p,
            row.ty,
            PathKind::from(row.a),
            row.b,
            current,
            els,
            place,
        ),
        PatKind::Lit => pattern_match_lit(
            image, tables, body, counts, mode, p, row.ty, row.a, current, els, place,
        ),
        PatKind::Expr => Err((MirLowerError::Expr, p)),
        PatKind::Box => Err((MirLowerError::NotSupported, p)),
        PatKind::Deref => Err((MirLowerError::NotSupported, p)),
        _ => Err((MirLowerError::IncompletePattern, p)),
    }
}
