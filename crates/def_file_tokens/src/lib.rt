//! The tokens of a game file in the profile of Gambit's `.efg` format. Its laws and worked rows are in
//! `def_game_laws`.
#![tactic(auto)]

/// What a token is.
#[derive(Clone, Copy, PartialEq, Eq)]
pub enum Token {
    /// A run that begins with an ASCII letter.
    Word,
    /// A quotation mark, the inside, and a quotation mark.
    Text,
    /// A run that begins with a digit, `+`, `-` or `.`.
    Number,
    /// `{`
    Open,
    /// `}`
    Close,
    /// `,`
    Comma,
    /// The end of the bytes.
    End,
}

/// A token with its span: the offset of its first byte and the offset behind its last one.
#[derive(Clone, Copy)]
pub struct Lexeme {
    pub kind: Token,
    pub start: usize,
    pub end: usize,
}

/// Why there is no next token.
#[derive(Clone, Copy)]
pub enum LexFault {
    /// The byte at this offset begins no token.
    Syntax { at: usize },
    /// The text whose opening mark is at this offset has no closing mark.
    Unclosed { at: usize },
}
