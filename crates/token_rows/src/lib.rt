// The words of a token, and the rows of names, chars and marks.
#![tactic(auto)]

ghost use Rattle.std.specs.Prelude.{◌≡◌, ◌<◌};
ghost use Rattle.token_rows.specs.TokenRows.{name_row, char_row, mark_row};

// A token: `sort` is 0 for a name, whose own bytes begin at `own`, 1 for a char, whose number's halves are `mark` and `own`, and 2 for a mark.
#[derive(Clone, Copy)]
pub struct TokenRow {
    pub sort: u16,
    pub mark: u16,
    pub own: u16,
    pub from: u16,
    pub to: u16,
}

pub fn name_row(own: usize, from: u16, to: u16) -> TokenRow
    requires { own < 65536 }
    ensures { result ≡ name_row own from to }
{
    TokenRow {
        sort: 0,
        mark: 0,
        own: own as u16,
        from,
        to,
    }
}

pub fn char_row(v: u32, from: u16, to: u16) -> TokenRow
    ensures { result ≡ char_row v from to }
{
    TokenRow {
        sort: 1,
        mark: (v % 65536) as u16,
        own: (v / 65536) as u16,
        from,
        to,
    }
}

pub fn mark_row(mark: u16, from: u16, to: u16) -> TokenRow
    ensures { result ≡ mark_row mark from to }
{
    TokenRow {
        sort: 2,
        mark,
        own: 0,
        from,
        to,
    }
}
