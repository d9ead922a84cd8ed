// Locals. A word of the table is a local's type: a number of the type table, which has at most 256, or one of three that follow.
ghost use Rattle.std.specs.Prelude.{◌≡◌, length};
ghost use Rattle.mir.specs.Locals.{local_ty, new_local, locals_after};

use super::Counts;
use place::LocalId;
use place::place_ty::PlaceTy;

// The types of locals that the lowering makes for a test.
pub const BOOL: u16 = 256;

pub const USIZE: u16 = 257;

pub const I128: u16 = 258;

// A new local of the type that the word says. None where the limit is passed.
pub fn new_local(locals: &mut [u16], counts: Counts, ty: u16) -> Option<(Counts, LocalId)>
    requires { length locals.old ≡ 512 }
    ensures { (result ≡ new_local counts) × (locals.new ≡ locals_after counts locals.old ty) }
{
    let n = counts.locals;
    if 512 <= n {
        return None;
    }
    let at = n as usize;
    locals[at] = ty;
    Some((
        Counts {
            locals: n + 1,
            ..counts
        },
        LocalId(n),
    ))
}

// The type of a word.
pub fn word_ty(word: u16) -> PlaceTy
    ensures { result ≡ local_ty word }
{
    if word < 256 {
        return PlaceTy::Ty(word);
    }
    match word {
        256 => PlaceTy::Bool,
        257 => PlaceTy::Usize,
        258 => PlaceTy::I128,
        _ => PlaceTy::Inapplicable,
    }
}
