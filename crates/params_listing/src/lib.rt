// What is printed for a call on parameters, written into a lent buffer.
#![tactic(auto)]

ghost use Rattle.std.specs.Prelude.{◌≡◌, true};
ghost use Rattle.image.specs.Tables.{Whole};
ghost use Rattle.image.specs.Valid.{valid};
ghost use Rattle.listing_text.specs.Writing.{Wrote};
ghost use Rattle.image_text.specs.Listed.{Printed};
ghost use Rattle.params_start.specs.Started.{Starts};
ghost use Rattle.params_listing.specs.Listed.{start_text, params_text};
ghost use Rattle.body_tables.specs.Layout.{body_of};

use body_tables::BODY_WORDS;
use image::{BindingId, PatId, Tables};
use listing_text::pen::Pen;
use listing_text::put_refusal;
use mir::{BasicBlockId, Counts};
use params_call::lower_params_and_bindings;
use params_start::{call_words, many_of, start_params, unbind};
use params_text::put_params_answer;
use pattern_entering::VISIT_WORDS;
use read_image::read_image;
use row_tables::clear_from;

// Self and the list are lowered from the start, and the text of the answer is written.
fn put_called(
    image: &[u8],
    opened: u16,
    receiver: Option<(BindingId, u16)>,
    list: &[u16],
    bindings: &mut [u16],
    body: &mut [u16; BODY_WORDS],
    visits: &mut [u16; VISIT_WORDS],
    counts: Counts,
    out: &mut [u8],
    pen: Pen,
) -> Pen
    requires { Starts image.now opened bindings.old (body_of body.old) visits.old counts }
    ensures { Wrote out.old pen (start_text image.now opened receiver list.now) result out.new }
{
    let many = many_of(receiver, list.len());
    let answer = lower_params_and_bindings(
        image,
        bindings,
        body,
        visits,
        counts,
        list,
        receiver,
        BasicBlockId(0),
    );
    put_params_answer(out, pen, body, bindings, many, answer)
}

// The body is started, and the text of the call's answer is written.
fn put_lowered(
    image: &[u8],
    tables: Tables,
    opened: u16,
    receiver: Option<(BindingId, u16)>,
    list: &[u16],
    body: &mut [u16; BODY_WORDS],
    visits: &mut [u16; VISIT_WORDS],
    out: &mut [u8],
    pen: Pen,
) -> Pen
    requires { (valid image.now ≡ true) × Whole image.now tables }
    ensures { Wrote out.old pen (start_text image.now opened receiver list.now) result out.new }
{
    let counts = start_params(body, opened);
    let count = tables.bindings.count as usize;
    let mut bindings = [0u16; 256];
    unbind(&mut bindings);
    clear_from(visits, 0);
    put_called(
        image,
        opened,
        receiver,
        list,
        &mut bindings[..count],
        body,
        visits,
        counts,
        out,
        pen,
    )
}

// The text of a call, or its refusal, where the pen is. The body and the visits are lent as room to work in.
fn put_params(
    image: &[u8],
    words: &[u16],
    body: &mut [u16; BODY_WORDS],
    visits: &mut [u16; VISIT_WORDS],
    out: &mut [u8],
    pen: Pen,
) -> Pen
    ensures { Wrote out.old pen (params_text image.now words.now) result out.new }
{
    let Some(tables) = read_image(image) else {
        return put_refusal(out, pen, 1, PatId(65535), 0);
    };
    if words.len() < 4 {
        return put_refusal(out, pen, 2, PatId(65535), 0);
    }
    let call = call_words(words);
    let receiver = call.receiver;
    put_lowered(
        image,
        tables,
        call.opened,
        receiver,
        &words[4..],
        body,
        visits,
        out,
        pen,
    )
}

// The text of a call, or its refusal, from the start of a buffer on: answers how many bytes it has, or 0 where the buffer has no room for it.
pub fn list_params(image: &[u8], words: &[u16], out: &mut [u8]) -> usize
    ensures { Printed out.old (params_text image.now words.now) result out.new }
{
    let mut body = [0u16; BODY_WORDS];
    let mut visits = [0u16; VISIT_WORDS];
    let pen = Pen { at: 0, ok: true };
    let done = put_params(image, words, &mut body, &mut visits, out, pen);
    if done.ok {
        return done.at;
    }
    0
}
