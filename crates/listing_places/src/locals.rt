// Locals.
ghost use Rattle.std.specs.Prelude.{◌≡◌, ◌≤◌, length, take};
ghost use Rattle.listing_text.specs.Listing.{local_ty_text, local_text, locals_text};
ghost use Rattle.listing_text.specs.Writing.{Wrote};

use listing_text::numbers::put_numbered;
use listing_text::pen::{Pen, put};
use mir::locals::{BOOL, I128, USIZE};
use place::LocalId;

// The type of a local, by its word.
fn put_local_ty(out: &mut [u8], pen: Pen, word: u16) -> Pen
    ensures { Wrote out.old pen (local_ty_text word) result out.new }
{
    if word == BOOL {
        return put(out, pen, b"bool");
    }
    if word == USIZE {
        return put(out, pen, b"usize");
    }
    if word == I128 {
        return put(out, pen, b"i128");
    }
    put_numbered(out, pen, b"t", word)
}

// The local l, whose type has this word.
fn put_local(out: &mut [u8], pen: Pen, l: LocalId, word: u16) -> Pen
    ensures { Wrote out.old pen (local_text l.0 word) result out.new }
{
    let number = put_numbered(out, pen, b"local ", l.0);
    let begun = put(out, number, b" ");
    let ended = put_local_ty(out, begun, word);
    put(out, ended, b"\n")
}

// The first locals of a table: so many.
pub fn put_locals(out: &mut [u8], pen: Pen, locals: &[u16], count: u16) -> Pen
    requires { (length locals.now ≡ 512) × (count ≤ 512) }
    ensures { Wrote out.old pen (locals_text 0 (take count locals.now)) result out.new }
{
    let mut written = put(out, pen, b"");
    for i in 0..count {
        written = put_local(out, written, LocalId(i), locals[i as usize]);
    }
    written
}
