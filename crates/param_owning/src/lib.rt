// Whether the local of a parameter's binding is the parameter's own: then there is nothing to do.
#![tactic(auto)]

ghost use Rattle.std.specs.Prelude.{◌≡◌, true, ◌<◌, length};
ghost use Rattle.image.specs.Tables.{Whole, pattern_count, binding_count};
ghost use Rattle.image.specs.Valid.{valid};
ghost use Rattle.param_owning.specs.Owning.{TellsBinding, TellsParam};

use body_locals::binding_local;
use image::rows::pat_at;
use image::{BindingId, PatId, Tables};
use place::LocalId;
use refusals::MirLowerError;

// Whether the local of the binding b is l.
fn binding_owned(bindings: &[u16], b: BindingId, l: LocalId) -> Result<bool, MirLowerError>
    requires { b.0 < length bindings.now }
    ensures { TellsBinding bindings.now b.0 l.0 result }
{
    let m = binding_local(bindings, b)?;
    if l.0 == m.0 {
        return Ok(true);
    }
    Ok(false)
}

// Whether the parameter p, whose local is l, is a Bind whose binding has that local.
pub fn param_owned(
    image: &[u8],
    tables: Tables,
    bindings: &[u16],
    p: PatId,
    l: LocalId,
) -> Result<bool, MirLowerError>
    requires { (valid image.now ≡ true) × Whole image.now tables × (length bindings.now ≡ binding_count image.now) × (p.0 < pattern_count image.now) }
    ensures { TellsParam image.now bindings.now p.0 l.0 result }
{
    let row = pat_at(image, tables, p);
    if row.kind != 11 {
        return Ok(false);
    }
    binding_owned(bindings, BindingId(row.a), l)
}
