// Statements of document 01's listing, each by its row, written into a lent buffer.
#![tactic(auto)]

ghost use Rattle.std.specs.Prelude.{◌≡◌, ◌++◌, length};
ghost use Rattle.mir.specs.Statements.{statement_width};
ghost use Rattle.views.specs.Views.{of_constant, set, word, path_of, constant_at, left_of, line_of};
ghost use Rattle.listing_text.specs.Words.{and_copy_word};
ghost use Rattle.listing_text.specs.Listing.{place_text, left_text, rvalue_text, statement_text};
ghost use Rattle.listing_places.specs.RowParts.{rvalue_of};
ghost use Rattle.listing_text.specs.Writing.{Wrote};

use listing_places::places::put_place;
use listing_places::rows::four_words;
use listing_text::numbers::{put_constant_bytes, put_line, put_numbered};
use listing_text::pen::{Pen, put};

// The bytes of the constant in a row.
fn put_constant(out: &mut [u8], pen: Pen, row: &[u16]) -> Pen
    requires { length row.now ≡ statement_width }
    ensures { Wrote out.old pen (rvalue_text (of_constant (constant_at row.now))) result out.new }
{
    let low = four_words(row, 7);
    let high = four_words(row, 11);
    put_constant_bytes(out, pen, row[4], low, high)
}

// The left operand in a row.
fn put_left(out: &mut [u8], pen: Pen, row: &[u16]) -> Pen
    requires { length row.now ≡ statement_width }
    ensures { Wrote out.old pen (left_text (left_of row.now)) result out.new }
{
    if row[3] == 1 {
        return put_numbered(out, pen, b"copy ", row[4]);
    }
    put_constant(out, pen, row)
}

// What is made of the place in a row, by its word.
fn put_of_place(out: &mut [u8], pen: Pen, text: &[u8], row: &[u16]) -> Pen
    requires { length row.now ≡ statement_width }
    ensures { Wrote out.old pen (text.now ++ place_text (path_of row.now)) result out.new }
{
    let begun = put(out, pen, text);
    put_place(out, begun, row)
}

// What an operator makes of the operands in a row, by its word.
fn put_binary(out: &mut [u8], pen: Pen, text: &[u8], row: &[u16]) -> Pen
    requires { length row.now ≡ statement_width }
    ensures { Wrote out.old pen (text.now ++ (left_text (left_of row.now) ++ (and_copy_word ++ place_text (path_of row.now)))) result out.new }
{
    let begun = put(out, pen, text);
    let left = put_left(out, begun, row);
    put_of_place(out, left, b" copy ", row)
}

// What the statement of a row sets its local to.
fn put_rvalue(out: &mut [u8], pen: Pen, row: &[u16]) -> Pen
    requires { length row.now ≡ statement_width }
    ensures { Wrote out.old pen (rvalue_text (rvalue_of row.now)) result out.new }
{
    match row[1] {
        3 => put_of_place(out, pen, b"copy ", row),
        4 => put_of_place(out, pen, b"ref ", row),
        5 => put_of_place(out, pen, b"mut ", row),
        6 => put_of_place(out, pen, b"len ", row),
        7 => put_of_place(out, pen, b"discr ", row),
        8 => put_constant(out, pen, row),
        9 => put_binary(out, pen, b"eq ", row),
        10 => put_binary(out, pen, b"le ", row),
        11 => put_binary(out, pen, b"ge ", row),
        12 => put_binary(out, pen, b"gt ", row),
        _ => put(out, pen, b""),
    }
}

// A statement that sets a local.
fn put_set(out: &mut [u8], pen: Pen, row: &[u16]) -> Pen
    requires { length row.now ≡ statement_width }
    ensures { Wrote out.old pen (statement_text (set (word row.now 2) (rvalue_of row.now))) result out.new }
{
    let target = put_numbered(out, pen, b"set ", row[2]);
    let begun = put(out, target, b" ");
    let ended = put_rvalue(out, begun, row);
    put(out, ended, b"\n")
}

// The statement of a row.
pub fn put_statement(out: &mut [u8], pen: Pen, row: &[u16]) -> Pen
    requires { length row.now ≡ statement_width }
    ensures { Wrote out.old pen (statement_text (line_of row.now).statement) result out.new }
{
    let local = row[2];
    match row[1] {
        1 => put_line(out, pen, b"live ", local),
        2 => put_line(out, pen, b"dead ", local),
        _ => put_set(out, pen, row),
    }
}
