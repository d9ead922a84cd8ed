// Whether what a call on parameters is handed is taken: document 01's numbers 1 and 2.
ghost use Rattle.std.specs.Prelude.{◌≡◌, ◌≤◌};
ghost use Rattle.image.specs.Tables.{Whole};
ghost use Rattle.params_spec.specs.Calls.{self_named, params_hold};
ghost use Rattle.param_locals.specs.Looking.{OpensParams};
ghost use Rattle.body_tables.specs.Layout.{body_of};

use body_calls_spec::Unopened;
use body_handed::start_holds;
use body_rules::body_holds;
use body_tables::BODY_WORDS;
use handed_tests::bindings_hold;
use image::{BindingId, Tables};
use mir::{BasicBlockId, Counts};
use param_lists::list_holds;
use read_image::read_image;

// Self names a binding and a type.
fn self_named(image: &[u8], tables: Tables, receiver: Option<(BindingId, u16)>) -> bool
    requires { Whole image.now tables }
    ensures { result ≡ self_named image.now receiver }
{
    let Some((b, ty)) = receiver else {
        return true;
    };
    if tables.bindings.count <= b.0 {
        return false;
    }
    ty < tables.types.count
}

// All else that the call is handed names something.
fn params_hold(
    image: &[u8],
    tables: Tables,
    receiver: Option<(BindingId, u16)>,
    bindings: &[u16],
    body: &[u16; BODY_WORDS],
    counts: Counts,
    current: BasicBlockId,
) -> bool
    requires { Whole image.now tables × (counts.blocks ≤ 512) }
    ensures { result ≡ params_hold image.now receiver bindings.now (body_of body.now).blocks counts current }
{
    if !self_named(image, tables, receiver) {
        return false;
    }
    if !bindings_hold(tables.bindings.count, counts, bindings) {
        return false;
    }
    start_holds(body, counts, current)
}

// Image, list, body and the call's own values are taken, in this order.
pub fn open_params(
    image: &[u8],
    words: &[u16],
    receiver: Option<(BindingId, u16)>,
    bindings: &[u16],
    body: &[u16; BODY_WORDS],
    counts: Counts,
    current: BasicBlockId,
) -> Result<Tables, Unopened>
    ensures { OpensParams image.now words.now receiver bindings.now (body_of body.now) counts current result }
{
    let Some(tables) = read_image(image) else {
        return Err(Unopened::BadImage);
    };
    if !list_holds(image, tables, receiver, words) {
        return Err(Unopened::BadImage);
    }
    if !body_holds(tables.types.count, tables.variants.count, body, counts) {
        return Err(Unopened::BadCall);
    }
    if !params_hold(image, tables, receiver, bindings, body, counts, current) {
        return Err(Unopened::BadCall);
    }
    Ok(tables)
}
