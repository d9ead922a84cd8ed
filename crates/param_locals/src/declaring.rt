// The locals of self, of the parameters and of the other bindings. A function stops at the first refusal.
ghost use Rattle.std.specs.Prelude.{◌≡◌, true, ◌<◌, length};
ghost use Rattle.image.specs.Tables.{Whole, pattern_count, binding_count};
ghost use Rattle.image.specs.Tree.{tree};
ghost use Rattle.image.specs.Valid.{valid};
ghost use Rattle.params_spec.specs.Params.{plain_binding, bound_to, declare_self, declare_param, declare_params, declare_binding, declare_bindings, declare};
ghost use Rattle.params_spec.specs.Calls.{params_of, list_formed, self_named};
ghost use Rattle.param_locals.specs.Declaring.{Declarable, SelfBound, Declares};
ghost use Rattle.body_tables.specs.Layout.{body_of};

use body_tables::BODY_WORDS;
use body_tables::locals::new_local;
use image::rows::{binding_at, pat_at};
use image::{BindingId, PatId, Tables};
use mir::Counts;
use param_entries::param_local;
use param_plain::is_plain;
use place::LocalId;
use refusals::MirLowerError;

// The binding of a plain parameter has the parameter's own local l.
fn bind_plain(image: &[u8], tables: Tables, bindings: &mut [u16], p: PatId, l: LocalId)
    requires { (valid image.now ≡ true) × Whole image.now tables × (length bindings.old ≡ binding_count image.now) × (p.0 < pattern_count image.now) }
    ensures { bindings.new ≡ bound_to bindings.old (plain_binding (tree image.now p.0)) l.0 }
{
    let row = pat_at(image, tables, p);
    if is_plain(row) {
        bindings[row.a as usize] = l.0;
    }
}

// Self's local, if there is one; its binding has that local.
fn declare_self(
    bindings: &mut [u16],
    body: &mut [u16; BODY_WORDS],
    counts: Counts,
    receiver: Option<(BindingId, u16)>,
) -> Result<Counts, MirLowerError>
    requires { SelfBound (length bindings.old) receiver }
    ensures { Declares (declare_self receiver) counts bindings.old (body_of body.old) result bindings.new (body_of body.new) }
{
    let Some((b, ty)) = receiver else {
        return Ok(counts);
    };
    let c1 = param_local(body, counts, ty)?;
    bindings[b.0 as usize] = counts.locals;
    Ok(c1)
}

// A parameter's local; the binding of a plain one has that local.
fn declare_param(
    image: &[u8],
    tables: Tables,
    bindings: &mut [u16],
    body: &mut [u16; BODY_WORDS],
    counts: Counts,
    p: PatId,
    ty: u16,
) -> Result<Counts, MirLowerError>
    requires { Declarable image.now tables bindings.old × (p.0 < pattern_count image.now) }
    ensures { Declares (declare_param image.now (record { pattern = p.0; ty = ty })) counts bindings.old (body_of body.old) result bindings.new (body_of body.new) }
{
    let c1 = param_local(body, counts, ty)?;
    bind_plain(image, tables, bindings, p, LocalId(counts.locals));
    Ok(c1)
}

// The parameters' locals, in order.
fn declare_params(
    image: &[u8],
    tables: Tables,
    bindings: &mut [u16],
    body: &mut [u16; BODY_WORDS],
    counts: Counts,
    words: &[u16],
) -> Result<Counts, MirLowerError>
    requires { Declarable image.now tables bindings.old × (list_formed image.now words.now ≡ true) }
    ensures { Declares (declare_params image.now (params_of words.now)) counts bindings.old (body_of body.old) result bindings.new (body_of body.new) }
{
    let mut c = counts;
    for i in 0..words.len() / 2 {
        c = declare_param(
            image,
            tables,
            bindings,
            body,
            c,
            PatId(words[2 * i]),
            words[2 * i + 1],
        )?;
    }
    Ok(c)
}

// A local for a binding that is picked and has none; it enters no scope.
fn declare_binding(
    image: &[u8],
    tables: Tables,
    bindings: &mut [u16],
    body: &mut [u16; BODY_WORDS],
    counts: Counts,
    b: BindingId,
) -> Result<Counts, MirLowerError>
    requires { Whole image.now tables × (length bindings.old ≡ binding_count image.now) × (b.0 < binding_count image.now) }
    ensures { Declares (declare_binding image.now b.0) counts bindings.old (body_of body.old) result bindings.new (body_of body.new) }
{
    let row = binding_at(image, tables, b);
    if row.picked != 1 {
        return Ok(counts);
    }
    if bindings[b.0 as usize] != 65535 {
        return Ok(counts);
    }
    let (c1, l) = new_local(body, counts, row.ty).ok_or(MirLowerError::Limit)?;
    bindings[b.0 as usize] = l.0;
    Ok(c1)
}

// The locals of the bindings that are picked and have none.
fn declare_bindings(
    image: &[u8],
    tables: Tables,
    bindings: &mut [u16],
    body: &mut [u16; BODY_WORDS],
    counts: Counts,
) -> Result<Counts, MirLowerError>
    requires { Whole image.now tables × (length bindings.old ≡ binding_count image.now) }
    ensures { Declares (declare_bindings image.now 0 (binding_count image.now)) counts bindings.old (body_of body.old) result bindings.new (body_of body.new) }
{
    let mut c = counts;
    for b in 0..tables.bindings.count {
        c = declare_binding(image, tables, bindings, body, c, BindingId(b))?;
    }
    Ok(c)
}

// All locals: self's, the parameters', and those of the other bindings.
pub fn declare(
    image: &[u8],
    tables: Tables,
    bindings: &mut [u16],
    body: &mut [u16; BODY_WORDS],
    counts: Counts,
    receiver: Option<(BindingId, u16)>,
    words: &[u16],
) -> Result<Counts, MirLowerError>
    requires { Declarable image.now tables bindings.old × (self_named image.now receiver ≡ true) × (list_formed image.now words.now ≡ true) }
    ensures { Declares (declare image.now receiver (params_of words.now)) counts bindings.old (body_of body.old) result bindings.new (body_of body.new) }
{
    let c1 = declare_self(bindings, body, counts, receiver)?;
    let c2 = declare_params(image, tables, bindings, body, c1, words)?;
    declare_bindings(image, tables, bindings, body, c2)
}
