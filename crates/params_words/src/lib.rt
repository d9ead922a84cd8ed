// Locals in a row, as the lines behind a listing have them: those of a list, or so many from a first one on.
#![tactic(auto)]

ghost use Rattle.std.specs.Prelude.{◌+◌, ◌≤◌};
ghost use Rattle.image.specs.Lists.{up_from};
ghost use Rattle.listing_text.specs.Writing.{Wrote};
ghost use Rattle.params_words.specs.Words.{word_text, words_text};

use listing_text::numbers::put_numbered;
use listing_text::pen::{Pen, put};
use place::LocalId;

// A local; 65535 is none.
fn put_word(out: &mut [u8], pen: Pen, word: u16) -> Pen
    ensures { Wrote out.old pen (word_text word) result out.new }
{
    if word == 65535 {
        return put(out, pen, b" -");
    }
    put_numbered(out, pen, b" ", word)
}

// The locals of a list.
pub fn put_words(out: &mut [u8], pen: Pen, words: &[u16]) -> Pen
    ensures { Wrote out.old pen (words_text words.now) result out.new }
{
    let mut written = put(out, pen, b"");
    for word in words {
        written = put_word(out, written, *word);
    }
    written
}

// So many locals, one after the other, from the first on.
pub fn put_run(out: &mut [u8], pen: Pen, first: LocalId, count: u16) -> Pen
    requires { first.0 + count ≤ 65535 }
    ensures { Wrote out.old pen (words_text (up_from first.0 count)) result out.new }
{
    let mut written = put(out, pen, b"");
    for word in first.0..first.0 + count {
        written = put_word(out, written, word);
    }
    written
}
