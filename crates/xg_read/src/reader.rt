//! A reader of a file's tokens.
ghost use Rattle.std.specs.Prelude.{◌≡◌, ◌+◌, ◌-◌, ◌≤◌, true, length, slice_range, IfOk};
ghost use Rattle.def_file_tokens.specs.Texts.{IsInside};
ghost use Rattle.def_file.specs.Reading.{next_is, nothing_at, token_text, token_where, unfit};
ghost use Rattle.xg_read.specs.Wanted.{test_of};

use crate::wanted::{Wanted, is_kind};
use def_file::FileFault;
use std::marker::Model;
use xg_lex::{LexFault, Lexeme, TextView, Token, Tokens};

/// Reads a file from front to back.
#[derive(Drop)]
pub struct Reader<'a> {
    bytes: &'a [u8],
    tokens: Tokens<'a>,
}

impl<'a> Model for Reader<'a> {
    ghost use Rattle.std.specs.Prelude.{◌≡◌};
    ghost use Rattle.def_file_tokens.specs.Tokens.{Cursor};

    ghost Value = { Cursor };

    ghost view = { λ r. r.tokens };

    ghost invariant = { λ r. r.tokens.whole ≡ r.bytes.now };
}

impl<'a> Reader<'a> {
    /// A reader that stands before the first byte.
    pub fn new(bytes: &'a [u8]) -> Reader<'a>
        ensures whole { result.whole ≡ bytes.now }
        ensures start { result.at ≡ 0 }
    {
        Reader {
            bytes,
            tokens: Tokens::new(bytes),
        }
    }

    /// The bytes of the file.
    #[inline(always)]
    pub fn bytes(&self) -> &'a [u8]
        ensures { result.now ≡ self.now.whole }
    {
        self.bytes
    }

    /// How many bytes the file has.
    pub fn len(&self) -> usize
        ensures { result ≡ length self.now.whole }
    {
        self.bytes.len()
    }

    /// Whether this byte comes next, white space aside.
    #[tactic(auto, unfolding(def_file::specs::Reading::next_is))]
    #[inline(always)]
    pub fn comes(&self, byte: u8) -> bool
        ensures { result ≡ next_is byte self.now.whole self.now.at }
    {
        match self.tokens.next_byte() {
            Some(next) => next == byte,
            None => false,
        }
    }

    /// The next token, if it is one that is wanted.
    #[tactic(auto, using(crate::proofs::Texts::text_room), unfolding(def_file::specs::Reading::token_where))]
    #[inline(always)]
    pub fn token(&mut self, wanted: Wanted) -> Result<Lexeme, FileFault>
        ensures exact { result ≡ token_where (test_of wanted self.old.whole) self.old.whole self.old.at }
        ensures met { IfOk result (λ token. test_of wanted self.old.whole token ≡ true) }
        ensures place { IfOk result (λ token. self.new.at ≡ token.end) }
        ensures whole { self.new.whole ≡ self.old.whole }
        ensures order { IfOk result (λ token. token.start ≤ token.end) }
        ensures within { IfOk result (λ token. token.end ≤ length self.old.whole) }
        ensures marks { IfOk result (λ token. token.kind ≡ Token.Text → token.start + 2 ≤ token.end) }
        ensures inside { IfOk result (λ token. token.kind ≡ Token.Text
            → IsInside (slice_range self.old.whole (token.start + 1) (token.end - 1))) }
    {
        match self.tokens.next() {
            Ok(token) => {
                if wanted.is_met(self.bytes, token) {
                    return Ok(token);
                }
                Err(unfit(token))
            }
            Err(LexFault::Syntax { at }) => Err(FileFault::Syntax { at }),
            Err(LexFault::Unclosed { at: _ }) => Err(FileFault::UnexpectedEnd),
        }
    }

    /// Sees that nothing but white space is left, and answers where the bytes end.
    #[tactic(auto, unfolding(def_file::specs::Reading::nothing_at))]
    pub fn nothing(&mut self) -> Result<usize, FileFault>
        ensures { result ≡ nothing_at self.old.whole self.old.at }
    {
        match self.tokens.next() {
            Ok(token) => {
                if is_kind(Token::End, token.kind) {
                    return Ok(token.end);
                }
                Err(FileFault::TrailingText { at: token.start })
            }
            Err(LexFault::Syntax { at }) => Err(FileFault::TrailingText { at }),
            Err(LexFault::Unclosed { at }) => Err(FileFault::TrailingText { at }),
        }
    }

    /// The bytes of a token.
    #[inline(always)]
    pub fn token_bytes(&self, token: Lexeme) -> &[u8]
        requires order { token.start ≤ token.end }
        requires within { token.end ≤ length self.now.whole }
        ensures { result.now ≡ slice_range self.now.whole token.start token.end }
    {
        &self.bytes[token.start..token.end]
    }

    /// The text that a text token stands for.
    #[inline(always)]
    pub fn text(&self, token: Lexeme) -> TextView<'a>
        requires marks { token.start + 2 ≤ token.end }
        requires within { token.end ≤ length self.now.whole }
        requires inside { IsInside (slice_range self.now.whole (token.start + 1) (token.end - 1)) }
        ensures { result ≡ token_text self.now.whole token }
    {
        let bytes = self.bytes;
        TextView::of(&bytes[token.start + 1..token.end - 1])
    }
}

/// The fault of a token that can't be taken.
#[inline(always)]
fn unfit(token: Lexeme) -> FileFault
    ensures { result ≡ unfit token }
{
    if is_kind(Token::End, token.kind) {
        return FileFault::UnexpectedEnd;
    }
    FileFault::Syntax { at: token.start }
}
