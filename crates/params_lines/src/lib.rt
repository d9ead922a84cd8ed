// The three lines behind the listing of a call of `lower_params_and_bindings`: the locals of the parameters, of the bindings and in the scopes.
#![tactic(auto)]

ghost use Rattle.std.specs.Prelude.{◌+◌, ◌≤◌};
ghost use Rattle.listing_text.specs.Writing.{Wrote};
ghost use Rattle.params_lines.specs.Lines.{line_text, lines_text};

use listing_text::pen::{Pen, put};
use params_words::{put_run, put_words};
use place::LocalId;

// A line of the locals of a list.
fn put_list(out: &mut [u8], pen: Pen, name: &[u8], words: &[u16]) -> Pen
    ensures { Wrote out.old pen (line_text name.now words.now) result out.new }
{
    let begun = put(out, pen, name);
    let listed = put_words(out, begun, words);
    put(out, listed, b"\n")
}

// The three lines behind the listing.
pub fn put_lines(
    out: &mut [u8],
    pen: Pen,
    first: LocalId,
    many: u16,
    bindings: &[u16],
    entries: &[u16],
) -> Pen
    requires { first.0 + many ≤ 65535 }
    ensures { Wrote out.old pen (lines_text first.0 many bindings.now entries.now) result out.new }
{
    let begun = put(out, pen, b"params");
    let run = put_run(out, begun, first, many);
    let ended = put(out, run, b"\n");
    let bound = put_list(out, ended, b"bindings", bindings);
    put_list(out, bound, b"entries", entries)
}
