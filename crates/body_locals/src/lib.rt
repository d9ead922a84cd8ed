// What is read of a body's locals: which one a binding has, and whether an open scope holds one.
#![tactic(auto)]

ghost use Rattle.std.specs.Prelude.{◌≡◌, ◌<◌, length, take};
ghost use Rattle.image.specs.Lists.{member};
ghost use Rattle.lower_spec.specs.Temps.{binding_local};
ghost use Rattle.lower_spec.specs.Replies.{bound_result};
ghost use Rattle.body_tables.specs.Layout.{body_words, body_of};

use body_tables::{BODY_WORDS, ENTRIES};
use image::BindingId;
use mir::Counts;
use place::LocalId;
use refusals::MirLowerError;

// The local of a binding.
pub fn binding_local(bindings: &[u16], b: BindingId) -> Result<LocalId, MirLowerError>
    requires { b.0 < length bindings.now }
    ensures { bound_result result ≡ binding_local bindings.now b.0 }
{
    let l = bindings[b.0 as usize];
    if l == 65535 {
        return Err(MirLowerError::InaccessibleLocal);
    }
    Ok(LocalId(l))
}

// The local is among the first entries, as many as are counted. All are looked at, which is quicker than to stop at the first.
fn is_among(entries: &[u16], counts: Counts, l: LocalId) -> bool
    ensures { result ≡ member l.0 (take counts.entries entries.now) }
{
    let count = (counts.entries as usize).min(entries.len());
    let mut held = false;
    for entry in &entries[..count] {
        if *entry == l.0 {
            held = true;
        }
    }
    held
}

// An open scope holds the local: the entries are those of the open scopes.
pub fn is_held(body: &[u16], counts: Counts, l: LocalId) -> bool
    requires { length body.now ≡ body_words }
    ensures { result ≡ member l.0 (take counts.entries (body_of body.now).entries) }
{
    is_among(&body[ENTRIES..BODY_WORDS], counts, l)
}
