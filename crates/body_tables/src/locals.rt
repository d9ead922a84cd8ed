// New locals, and the words of their types.
ghost use Rattle.std.specs.Prelude.{◌≡◌, ◌<◌, length, get_or};
ghost use Rattle.mir.specs.Locals.{new_local, locals_after};
ghost use Rattle.body_tables.specs.Layout.{body_words, body_of, with_locals};

use super::{LOCALS, SCOPES};
use mir::Counts;
use place::LocalId;

// A new local of the type that the word says. None where the limit is passed.
pub fn new_local(body: &mut [u16], counts: Counts, ty: u16) -> Option<(Counts, LocalId)>
    requires { length body.old ≡ body_words }
    ensures { (result ≡ new_local counts) × (body_of body.new ≡ with_locals (body_of body.old) (locals_after counts (body_of body.old).locals ty)) }
{
    mir::locals::new_local(&mut body[LOCALS..SCOPES], counts, ty)
}

// The word of a local's type.
pub fn local_word(body: &[u16], l: LocalId) -> u16
    requires { (length body.now ≡ body_words) × (l.0 < 512) }
    ensures { result ≡ get_or (body_of body.now).locals l.0 0 }
{
    body[LOCALS + (l.0 as usize)]
}
