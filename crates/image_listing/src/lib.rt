// What the listing program prints for an image, written into a lent buffer.
#![tactic(auto)]

ghost use Rattle.std.specs.Prelude.{◌≡◌, true, ◌<◌};
ghost use Rattle.image.specs.Tables.{Whole, type_count};
ghost use Rattle.image.specs.Valid.{valid};
ghost use Rattle.listing_text.specs.Writing.{Wrote};
ghost use Rattle.image_text.specs.Listed.{listing_call, call_text, image_text, Printed};

use body_tables::BODY_WORDS;
use image::{PatId, Tables};
use image_text::put_answer;
use listing_start::{number_bindings, start_place, start_type};
use listing_start_body::start_body;
use listing_text::pen::Pen;
use listing_text::put_refusal;
use mir::BasicBlockId;
use pattern_entering::VISIT_WORDS;
use pattern_match_call::pattern_match;
use read_image::read_image;
use row_tables::clear_from;

// The last pattern is lowered against local 0 of the type t, and the listing or the refusal is written.
fn put_lowered(
    image: &[u8],
    tables: Tables,
    t: u16,
    body: &mut [u16; BODY_WORDS],
    visits: &mut [u16; VISIT_WORDS],
    out: &mut [u8],
    pen: Pen,
) -> Pen
    requires { (valid image.now ≡ true) × Whole image.now tables × (t < type_count image.now) }
    ensures { Wrote out.old pen (call_text (listing_call image.now t)) result out.new }
{
    let counts = start_body(image, tables, t, body);
    let count = tables.bindings.count as usize;
    let mut numbers = [0u16; 256];
    number_bindings(&mut numbers);
    clear_from(visits, 0);
    let place = start_place();
    let answer = pattern_match(
        image,
        &numbers[..count],
        body,
        visits,
        counts,
        PatId(tables.patterns.count - 1),
        BasicBlockId(0),
        None,
        place,
    );
    put_answer(out, pen, body, answer)
}

// The listing of an image, or its refusal, where the pen is. The body and the visits are lent as room to work in.
pub fn put_image(
    image: &[u8],
    body: &mut [u16; BODY_WORDS],
    visits: &mut [u16; VISIT_WORDS],
    out: &mut [u8],
    pen: Pen,
) -> Pen
    ensures { Wrote out.old pen (image_text image.now) result out.new }
{
    match read_image(image) {
        None => put_refusal(out, pen, 1, PatId(65535), 0),
        Some(tables) => match start_type(image, tables) {
            None => put_refusal(out, pen, 2, PatId(65535), 0),
            Some(t) => put_lowered(image, tables, t, body, visits, out, pen),
        },
    }
}

// The listing of an image, or its refusal, from the start of a buffer on: answers how many bytes it has, or 0 where the buffer has no room for it.
pub fn list_image(image: &[u8], out: &mut [u8]) -> usize
    ensures { Printed out.old (image_text image.now) result out.new }
{
    let mut body = [0u16; BODY_WORDS];
    let mut visits = [0u16; VISIT_WORDS];
    let pen = Pen { at: 0, ok: true };
    let done = put_image(image, &mut body, &mut visits, out, pen);
    if done.ok {
        return done.at;
    }
    0
}
