// The terminators of blocks, in document 01's listing of a body, written into a lent buffer.
#![tactic(auto)]

ghost use Rattle.mir.specs.declared.blocks.Terminator.{Terminator};
ghost use Rattle.listing_text.specs.Listing.{terminator_text};
ghost use Rattle.listing_text.specs.Writing.{Wrote};

use listing_text::numbers::{put_hex_halves, put_line, put_numbered};
use listing_text::pen::{Pen, put};
use mir::BasicBlockId;
use mir::blocks::Terminator;
use place::LocalId;

// A switch, by the numbers that it has.
fn put_switch(
    out: &mut [u8],
    pen: Pen,
    local: LocalId,
    low: u64,
    high: u64,
    then: BasicBlockId,
    other: BasicBlockId,
) -> Pen
    ensures { Wrote out.old pen (terminator_text (Terminator.Switch local low high then other)) result out.new }
{
    let tested = put_numbered(out, pen, b"switch ", local.0);
    let begun = put(out, tested, b" ");
    let value = put_hex_halves(out, begun, low, high);
    let first = put_numbered(out, value, b" ", then.0);
    put_line(out, first, b" ", other.0)
}

// A terminator.
pub fn put_terminator(out: &mut [u8], pen: Pen, terminator: Terminator) -> Pen
    ensures { Wrote out.old pen (terminator_text terminator) result out.new }
{
    match terminator {
        Terminator::Open => put(out, pen, b"open\n"),
        Terminator::Goto(b) => put_line(out, pen, b"goto ", b.0),
        Terminator::Switch(local, low, high, then, other) => {
            put_switch(out, pen, local, low, high, then, other)
        }
        Terminator::Unreachable => put(out, pen, b"unreachable\n"),
        Terminator::Drop(local, b) => {
            let begun = put_numbered(out, pen, b"drop ", local.0);
            put_line(out, begun, b" ", b.0)
        }
    }
}
