// A parameter's local, and its entry in the last scope.
#![tactic(auto)]

ghost use Rattle.params_spec.specs.Params.{param_local};
ghost use Rattle.body_tables.specs.Layout.{body_of};
ghost use Rattle.body_tables.specs.Promises.{Adds};

use body_scope_tables::push_entry;
use body_tables::BODY_WORDS;
use body_tables::locals::new_local;
use mir::Counts;
use refusals::MirLowerError;

// A parameter's local: the next one, of the type that the word says, as the last entry of the last scope.
pub fn param_local(
    body: &mut [u16; BODY_WORDS],
    counts: Counts,
    ty: u16,
) -> Result<Counts, MirLowerError>
    ensures { Adds (λ st. param_local st ty) counts (body_of body.old) result (body_of body.new) }
{
    let (c1, l) = new_local(body, counts, ty).ok_or(MirLowerError::Limit)?;
    if c1.scopes == 0 {
        return Err(MirLowerError::NoScope);
    }
    let c2 = push_entry(body, c1, l).ok_or(MirLowerError::Limit)?;
    Ok(c2)
}
