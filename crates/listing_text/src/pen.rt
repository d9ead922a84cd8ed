// Where the next byte of a text goes in a lent buffer, and how pieces of text are written there. A piece that does not fit writes nothing, and neither does
// what follows it.
ghost use Rattle.std.specs.Prelude.{◌≡◌, ◌&&◌, [], ◌∷◌, ◌+◌, ◌≤◌, leb, length};
ghost use Rattle.row_tables.specs.Rows.{stored};
ghost use Rattle.listing_text.specs.Writing.{Wrote};

// The place of the next byte; and whether there was room for all bytes so far.
#[derive(Clone, Copy)]
pub struct Pen {
    pub at: usize,
    pub ok: bool,
}

// So many bytes fit into a buffer of so many where the pen is.
fn has_room(room: usize, pen: Pen, count: usize) -> bool
    ensures { result ≡ (pen.ok && leb (pen.at + count) room) }
{
    if !pen.ok {
        return false;
    }
    if room < pen.at {
        return false;
    }
    count <= room - pen.at
}

// The bytes of the text, from the byte `at` of the buffer on.
fn copy_in(out: &mut [u8], at: usize, text: &[u8])
    requires { at + length text.now ≤ length out.old }
    ensures { out.new ≡ stored out.old at text.now }
{
    out[at..at + text.len()].copy_from_slice(text);
}

// A piece of text.
pub fn put(out: &mut [u8], pen: Pen, text: &[u8]) -> Pen
    ensures { Wrote out.old pen text.now result out.new }
{
    let at = pen.at;
    if !has_room(out.len(), pen, text.len()) {
        return Pen { at, ok: false };
    }
    copy_in(out, at, text);
    Pen {
        at: at + text.len(),
        ok: true,
    }
}

// One byte.
pub fn put_byte(out: &mut [u8], pen: Pen, byte: u8) -> Pen
    ensures { Wrote out.old pen (byte ∷ []) result out.new }
{
    let at = pen.at;
    if !has_room(out.len(), pen, 1) {
        return Pen { at, ok: false };
    }
    out[at] = byte;
    Pen {
        at: at + 1,
        ok: true,
    }
}
