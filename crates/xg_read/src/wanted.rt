//! What is wanted at a place of a file.
ghost use Rattle.std.specs.Prelude.{◌≡◌, ◌≤◌, length, nat_eq};
ghost use Rattle.std.specs.Cmp.Lexicographic.{pointwise};
ghost use Rattle.def_file.specs.Reading.{is_kind, is_exact};
ghost use Rattle.xg_read.specs.Wanted.{test_of};

use xg_lex::{Lexeme, Token};

/// The token that a file goes on with.
#[derive(Clone, Copy)]
pub enum Wanted {
    /// The word `EFG`.
    Marker,
    /// The number `2`.
    Version,
    /// The word `R` or `D`.
    Numbers,
    Text,
    Number,
    Open,
    Close,
    Comma,
    /// The word of an entry, `c`, `p` or `t`.
    Head,
}

impl Wanted {
    /// Whether the token of these bytes is such a one.
    #[inline(always)]
    pub fn is_met(self, bytes: &[u8], token: Lexeme) -> bool
        requires order { token.start ≤ token.end }
        requires within { token.end ≤ length bytes.now }
        ensures { result ≡ test_of self bytes.now token }
    {
        match self {
            Wanted::Marker => is_exact(Token::Word, b"EFG", bytes, token),
            Wanted::Version => is_exact(Token::Number, b"2", bytes, token),
            Wanted::Numbers => {
                is_exact(Token::Word, b"R", bytes, token)
                    || is_exact(Token::Word, b"D", bytes, token)
            }
            Wanted::Text => is_kind(Token::Text, token.kind),
            Wanted::Number => is_kind(Token::Number, token.kind),
            Wanted::Open => is_kind(Token::Open, token.kind),
            Wanted::Close => is_kind(Token::Close, token.kind),
            Wanted::Comma => is_kind(Token::Comma, token.kind),
            Wanted::Head => {
                is_exact(Token::Word, b"c", bytes, token)
                    || is_exact(Token::Word, b"p", bytes, token)
                    || is_exact(Token::Word, b"t", bytes, token)
            }
        }
    }
}

/// Whether two kinds of tokens are one.
#[inline(always)]
pub fn is_kind(wanted: Token, kind: Token) -> bool
    ensures { result ≡ is_kind wanted kind }
{
    match (wanted, kind) {
        (Token::Word, Token::Word) => true,
        (Token::Text, Token::Text) => true,
        (Token::Number, Token::Number) => true,
        (Token::Open, Token::Open) => true,
        (Token::Close, Token::Close) => true,
        (Token::Comma, Token::Comma) => true,
        (Token::End, Token::End) => true,
        _ => false,
    }
}

/// Whether the token is of this kind and has these bytes.
#[inline(always)]
pub fn is_exact(kind: Token, exact: &[u8], bytes: &[u8], token: Lexeme) -> bool
    requires order { token.start ≤ token.end }
    requires within { token.end ≤ length bytes.now }
    ensures { result ≡ is_exact kind exact.now bytes.now token }
{
    is_kind(kind, token.kind) && is_same(&bytes[token.start..token.end], exact)
}

/// Whether the bytes are the same. Most words are one letter, which takes one comparison.
#[inline(always)]
fn is_same(one: &[u8], other: &[u8]) -> bool
    ensures { result ≡ pointwise nat_eq one.now other.now }
{
    match (one, other) {
        ([letter], [wanted]) => *letter == *wanted,
        (_, [_]) => false,
        _ => one == other,
    }
}
