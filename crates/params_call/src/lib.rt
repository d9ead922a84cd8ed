// `lower_params_and_bindings`: every image, list, body and number is taken, or refused by document 01's number. Numbers 1 and 2 write nothing; any other refusal leaves what
// lies below the counts and the bindings' locals as found, and zeros above.
#![tactic(auto)]

pub mod lowering; // lowering.rt: the parameters, on values that were looked at

ghost use Rattle.pattern_walk_spec.specs.Calls.{by_walk, start_ctx};
ghost use Rattle.params_spec.specs.Params.{lower_params_and_bindings};
ghost use Rattle.params_spec.specs.Calls.{params_of, GivesParams, ParamsGives};
ghost use Rattle.param_locals.specs.Looking.{ParamsTaken};
ghost use Rattle.body_tables.specs.Layout.{body_of};

use body_calls_spec::PatternCallError;
use body_clearing::clear_above;
use body_restoring::{block_row, put_back};
use body_tables::BODY_WORDS;
use image::{BindingId, Tables};
use lowering::walk_params;
use mir::{BasicBlockId, Counts};
use param_locals::lists::open_params;
use param_steps::numbering::lowered_answer;
use param_steps::saving::{put_words, saved_words};
use pattern_entering::VISIT_WORDS;
use pattern_walk_spec::Lowered;
use place::LocalId;
use row_tables::clear_from;

// The call's own step, on values that were looked at: zeros are written above the counts first, so that a new row lies among zeros.
fn params_step(
    image: &[u8],
    tables: Tables,
    bindings: &mut [u16],
    body: &mut [u16; BODY_WORDS],
    visits: &mut [u16; VISIT_WORDS],
    counts: Counts,
    words: &[u16],
    receiver: Option<(BindingId, u16)>,
    current: BasicBlockId,
) -> Result<(Counts, BasicBlockId, LocalId), PatternCallError>
    requires { ParamsTaken image.now tables words.now receiver bindings.old (body_of body.old) counts current }
    ensures { GivesParams bindings.old (body_of body.old) visits.old counts (by_walk (lower_params_and_bindings image.now receiver (params_of words.now) bindings.old (start_ctx (body_of body.old) counts) current)) result bindings.new (body_of body.new) visits.new }
{
    let row = block_row(body, current);
    let saved = saved_words(bindings);
    clear_above(body, counts);
    clear_from(visits, 0);
    match walk_params(
        image, tables, bindings, body, visits, counts, words, receiver, current,
    ) {
        Ok((c, then, other)) => lowered_answer(counts, c, then),
        Err((e, q)) => {
            put_back(body, current, row);
            clear_above(body, counts);
            clear_from(visits, 0);
            put_words(bindings, &saved);
            Err(PatternCallError::Refused(e, q))
        }
    }
}

// The locals of self, of the parameters and of the other bindings are made, and the parameters are lowered from the block `current` on. `params` has two words for
// each parameter, its pattern and its type; `visits` counts how often each pattern was visited.
// The answer: the counts, the block that goes on, and the local of the first parameter, self or not, which the others follow in order; `self_param` is self's binding and
// type.
pub fn lower_params_and_bindings(
    image: &[u8],
    bindings: &mut [u16],
    body: &mut [u16; BODY_WORDS],
    visits: &mut [u16; VISIT_WORDS],
    counts: Counts,
    params: &[u16],
    self_param: Option<(BindingId, u16)>,
    current: BasicBlockId,
) -> Result<(Counts, BasicBlockId, LocalId), PatternCallError>
    ensures { ParamsGives image.now params.now self_param counts current bindings.old (body_of body.old) visits.old result
        bindings.new (body_of body.new) visits.new }
{
    let tables = open_params(image, params, self_param, bindings, body, counts, current)?;
    params_step(
        image, tables, bindings, body, visits, counts, params, self_param, current,
    )
}
