// The token at a position of a pattern's text: by its first byte a word, an integer, a char, or punctuation.
#![tactic(auto)]

mod integers;

ghost use Rattle.std.specs.Prelude.{◌≡◌, ◌+◌, ◌<◌, ◌≤◌, ◌^◌, length};
ghost use Rattle.pattern_tokens.specs.Tokens.{piece_of, token_at, placed};

use char_tokens::char_piece;
use mark_tokens::mark_piece;
use pattern_tokens::Token;
use pattern_words::{Kind, Piece, words};
use text_chars::{byte_of, start_of};

// The token with which the bytes begin, at a position.
fn piece_of(bytes: &[u8], at: usize) -> Piece
    requires { at + length bytes.now < 2 ^ 64 }
    ensures { result ≡ piece_of at bytes.now }
{
    let b = byte_of(bytes, 0);
    if words::begins_word(b) {
        return words::word_piece(bytes, at);
    }
    if words::is_digit(b) {
        return integers::integer_piece(bytes);
    }
    if b == b'\'' {
        return char_piece(bytes);
    }
    mark_piece(bytes)
}

fn place(at: usize, piece: Piece) -> Token
    requires { at + piece.size < 2 ^ 64 }
    ensures { result ≡ placed at piece }
{
    let kind = piece.kind;
    let size = piece.size;
    Token {
        kind,
        from: at,
        to: at + size,
    }
}

// The first token from a position of a text on.
pub fn token_at(text: &[u8], at: usize) -> Token
    ensures { result ≡ token_at text.now at }
{
    match start_of(text, at) {
        Ok(from) => {
            if text.len() <= from {
                return Token {
                    kind: Kind::End,
                    from,
                    to: from,
                };
            }
            place(from, piece_of(&text[from..], from))
        }
        Err(from) => Token {
            kind: Kind::Fails,
            from,
            to: from,
        },
    }
}
