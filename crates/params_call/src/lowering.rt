// The locals of self and of the parameters are made, and then each parameter is lowered in order.
ghost use Rattle.std.specs.Prelude.{◌<◌};
ghost use Rattle.image.specs.Tables.{pattern_count};
ghost use Rattle.pattern_matching.specs.Walking.{local_place};
ghost use Rattle.pattern_walk_spec.specs.Answers.{Walks};
ghost use Rattle.pattern_walk_laws.specs.Walk.{Walkable};
ghost use Rattle.params_spec.specs.Params.{lower_param, lower_params, lower_params_and_bindings};
ghost use Rattle.params_spec.specs.Calls.{params_of};
ghost use Rattle.params_laws.specs.Walking.{Startable, ParamsWalkable, WalksParams};
ghost use Rattle.body_tables.specs.Layout.{body_of};

use body_tables::BODY_WORDS;
use image::{BindingId, PatId, Tables};
use mir::{BasicBlockId, Counts};
use param_locals::declaring::declare;
use param_owning::param_owned;
use param_shutting::shut;
use param_steps::numbering::{next_local, self_count};
use pattern_entering::VISIT_WORDS;
use pattern_passes::check_and_bind;
use pattern_walk_spec::Lowered;
use place::{LocalId, Place};

// The parameter p, whose local is l: a Bind whose binding has that local needs nothing.
fn lower_param(
    image: &[u8],
    tables: Tables,
    bindings: &[u16],
    body: &mut [u16; BODY_WORDS],
    visits: &mut [u16; VISIT_WORDS],
    counts: Counts,
    p: PatId,
    l: LocalId,
    current: BasicBlockId,
) -> Lowered
    requires { Walkable image.now tables bindings.now (body_of body.old) counts current None (local_place l) × (p.0 < pattern_count image.now) }
    ensures { Walks (λ ctx. lower_param image.now bindings.now p.0 l.0 ctx current) counts current None (body_of body.old) visits.old result (body_of body.new) visits.new }
{
    match param_owned(image, tables, bindings, p, l) {
        Err(e) => Err((e, p)),
        Ok(true) => Ok((counts, current, None)),
        Ok(false) => {
            let whole = Place {
                local: l,
                len: 0,
                elems: [0u32; 16],
            };
            let lowered = check_and_bind(
                image, tables, bindings, body, visits, counts, p, current, None, whole,
            );
            shut(body, lowered)
        }
    }
}

// The parameters of a list in order; the local of the first is `first`, and the others follow.
fn lower_params(
    image: &[u8],
    tables: Tables,
    bindings: &[u16],
    body: &mut [u16; BODY_WORDS],
    visits: &mut [u16; VISIT_WORDS],
    counts: Counts,
    words: &[u16],
    first: LocalId,
    current: BasicBlockId,
) -> Lowered
    requires { ParamsWalkable image.now tables words.now bindings.now (body_of body.old) counts current first.0 }
    ensures { Walks (λ ctx. lower_params image.now bindings.now (params_of words.now) first.0 ctx current) counts current None (body_of body.old) visits.old result (body_of body.new) visits.new }
{
    let mut c = counts;
    let mut here = current;
    let mut l = first;
    for i in 0..words.len() / 2 {
        let (c1, then, _) = lower_param(
            image,
            tables,
            bindings,
            body,
            visits,
            c,
            PatId(words[2 * i]),
            l,
            here,
        )?;
        c = c1;
        here = then;
        l = next_local(l);
    }
    Ok((c, here, None))
}

// The locals are made, and then the parameters are lowered: self's binding has self's own local.
pub fn walk_params(
    image: &[u8],
    tables: Tables,
    bindings: &mut [u16],
    body: &mut [u16; BODY_WORDS],
    visits: &mut [u16; VISIT_WORDS],
    counts: Counts,
    words: &[u16],
    receiver: Option<(BindingId, u16)>,
    current: BasicBlockId,
) -> Lowered
    requires { Startable image.now tables words.now receiver bindings.old (body_of body.old) counts current }
    ensures { WalksParams (λ ctx. lower_params_and_bindings image.now receiver (params_of words.now) bindings.old ctx current) counts current (body_of body.old) visits.old result (body_of body.new) visits.new bindings.new }
{
    match declare(image, tables, bindings, body, counts, receiver, words) {
        Err(e) => Err((e, PatId(65535))),
        Ok(c1) => lower_params(
            image,
            tables,
            bindings,
            body,
            visits,
            c1,
            words,
            LocalId(counts.locals + self_count(receiver)),
            current,
        ),
    }
}
