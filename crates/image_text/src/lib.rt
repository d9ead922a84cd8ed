// The text of what a call of `pattern_match` answers. What the listing program prints for an image is defined in specs/.
#![tactic(auto)]

ghost use Rattle.std.specs.Prelude.{◌≡◌, length};
ghost use Rattle.refusals.specs.Refusals.{refusal_at};
ghost use Rattle.body_tables.specs.Layout.{body_words, body_of};
ghost use Rattle.listing_text.specs.Listing.{refusal_text};
ghost use Rattle.listing_text.specs.Writing.{Wrote};
ghost use Rattle.image_text.specs.Listed.{Listable, answer_text};

use body_calls_spec::PatternCallError;
use image::PatId;
use listing_body::put_listing;
use listing_text::pen::Pen;
use listing_text::put_refusal;
use mir::{BasicBlockId, Counts};
use refusal_numbers::{number_of, reason_of};
use refusals::MirLowerError;

// A refusal of the walk, at the pattern p.
fn put_refused(out: &mut [u8], pen: Pen, e: MirLowerError, p: PatId) -> Pen
    ensures { Wrote out.old pen (refusal_text (refusal_at e p.0)) result out.new }
{
    put_refusal(out, pen, number_of(e), p, reason_of(e))
}

// The listing of the body after a call that was accepted, or the refusal.
pub fn put_answer(
    out: &mut [u8],
    pen: Pen,
    body: &[u16],
    answer: Result<(Counts, BasicBlockId, Option<BasicBlockId>), PatternCallError>,
) -> Pen
    requires { (length body.now ≡ body_words) × Listable answer }
    ensures { Wrote out.old pen (answer_text (body_of body.now) answer) result out.new }
{
    match answer {
        Ok((c, then, els)) => put_listing(out, pen, body, c, then, els),
        Err(PatternCallError::Refused(e, p)) => put_refused(out, pen, e, p),
        Err(PatternCallError::BadCall) => put_refusal(out, pen, 2, PatId(65535), 0),
        Err(PatternCallError::BadImage) => put_refusal(out, pen, 1, PatId(65535), 0),
    }
}
