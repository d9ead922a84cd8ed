// What a token of a pattern's text is, and those that begin with a word.
#![tactic(auto)]

pub mod words;

// What a token is. A name has the position where it begins, behind `r#`; a char has its value.
#[derive(Clone, Copy)]
pub enum Kind {
    Name(usize),
    Ref,
    Mut,
    True,
    False,
    Underscore,
    Integer,
    Char(u32),
    OpenParen,
    CloseParen,
    OpenBracket,
    CloseBracket,
    OpenBrace,
    CloseBrace,
    Comma,
    Or,
    And,
    AndAnd,
    Bind,
    Minus,
    Colon,
    PathSep,
    DotDot,
    DotDotEq,
    End,
    Fails,
}

// A token by its kind and how many bytes it has.
#[derive(Clone, Copy)]
pub struct Piece {
    pub kind: Kind,
    pub size: usize,
}
