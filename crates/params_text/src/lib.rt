// The text of what a call of `lower_params_and_bindings` answers.
#![tactic(auto)]

ghost use Rattle.std.specs.Prelude.{◌≡◌, length};
ghost use Rattle.body_tables.specs.Layout.{body_words, body_of};
ghost use Rattle.listing_text.specs.Writing.{Wrote};
ghost use Rattle.params_text.specs.Texts.{answer_text, Listable};

use body_calls_spec::PatternCallError;
use body_tables::ENTRIES;
use image::PatId;
use listing_body::put_listing;
use listing_text::pen::Pen;
use listing_text::put_refusal;
use mir::{BasicBlockId, Counts};
use params_lines::put_lines;
use place::LocalId;
use refusal_numbers::{number_of, reason_of};

// The listing of the body after a call that was accepted and the three lines behind it, or the refusal.
pub fn put_params_answer(
    out: &mut [u8],
    pen: Pen,
    body: &[u16],
    bindings: &[u16],
    many: u16,
    answer: Result<(Counts, BasicBlockId, LocalId), PatternCallError>,
) -> Pen
    requires { (length body.now ≡ body_words) × Listable many answer }
    ensures { Wrote out.old pen (answer_text (body_of body.now) bindings.now many answer) result out.new }
{
    match answer {
        Ok((c, then, first)) => {
            let listed = put_listing(out, pen, body, c, then, None);
            let end = ENTRIES + (c.entries as usize);
            put_lines(out, listed, first, many, bindings, &body[ENTRIES..end])
        }
        Err(PatternCallError::Refused(e, p)) => put_refusal(
            out,
            pen,
            number_of(e),
            p,
            reason_of(e),
        ),
        Err(PatternCallError::BadCall) => put_refusal(out, pen, 2, PatId(65535), 0),
        Err(PatternCallError::BadImage) => put_refusal(out, pen, 1, PatId(65535), 0),
    }
}
