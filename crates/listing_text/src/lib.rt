// Pieces of text, numbers, and a refusal, written into a lent buffer. What document 01's listing says is defined in specs/.
#![tactic(auto)]

pub mod numbers; // numbers.rt: numbers in decimal and in hexadecimal
pub mod pen; // pen.rt: where the next byte goes, and how bytes are written

ghost use Rattle.listing_text.specs.Listing.{refusal_text};
ghost use Rattle.listing_text.specs.Writing.{Wrote};

use image::PatId;
use numbers::{put_line, put_numbered};
use pen::Pen;

// A refusal: its number, its pattern, or 65535 where it has none, and its reason.
pub fn put_refusal(out: &mut [u8], pen: Pen, number: u16, pattern: PatId, reason: u16) -> Pen
    ensures { Wrote out.old pen (refusal_text (record { number = number; pattern = pattern.0; reason = reason })) result out.new }
{
    let first = put_numbered(out, pen, b"refused ", number);
    let second = put_numbered(out, first, b" ", pattern.0);
    put_line(out, second, b" ", reason)
}
