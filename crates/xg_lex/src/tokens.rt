//! The tokens of a file, one after another.
ghost use Rattle.std.specs.Prelude.{◌≡◌, ℕ, ◌+◌, ◌-◌, ◌<◌, ◌≤◌, ◌↔◌, IsTrue, Option, drop, length, slice_index};
ghost use Rattle.std.specs.Prelude.{slice_range, IfOk, IfSome};
ghost use Rattle.std.specs.List.{prefix_len, AllPass};
ghost use Rattle.def_file_tokens.specs.Bytes.{is_space, in_run, begins_word, begins_number};
ghost use Rattle.def_file_tokens.specs.Texts.{IsInside, closing_from};
ghost use Rattle.def_file_tokens.specs.Spelling.{IsFirstByteFrom, IsLexemeFrom};
ghost use Rattle.def_file_tokens.specs.Tokens.{after_space, byte_from, next_from, end_of, span, text_from, token_at};

use def_file_tokens::{LexFault, Lexeme, Token};
use memchr::memchr;
use std::marker::Model;

/// A reader of the tokens of a slice of bytes. It takes no memory.
#[derive(Drop)]
pub struct Tokens<'a> {
    bytes: &'a [u8],
    at: usize,
    // Where the white space from `at` on ends, so that it is read once alone.
    start: usize,
}

impl<'a> Model for Tokens<'a> {
    ghost use Rattle.def_file_tokens.specs.Tokens.{Cursor};
    ghost use Rattle.xg_lex.specs.Standing.{IsStanding};

    ghost Value = { Cursor };

    ghost view = { λ t. record { whole = t.bytes.now; at = t.at } };

    ghost invariant = { λ t. IsStanding t.bytes.now t.at t.start };
}

impl<'a> Tokens<'a> {
    /// A reader that stands before the first byte.
    pub fn new(bytes: &'a [u8]) -> Tokens<'a>
        ensures whole { result.whole ≡ bytes.now }
        ensures start { result.at ≡ 0 }
    {
        Tokens {
            bytes,
            at: 0,
            start: after_space(bytes, 0),
        }
    }

    /// The next token, behind the white space. After the end it answers the end again.
    #[inline(always)]
    pub fn next(&mut self) -> Result<Lexeme, LexFault>
        ensures exact { result ≡ next_from self.old.whole self.old.at }
        ensures whole { self.new.whole ≡ self.old.whole }
        ensures place { self.new.at ≡ end_of self.old.at result }
        // A reader stands within its bytes.
        ensures within { self.new.at ≤ length self.new.whole }
        // The token's bytes are its span, behind white space.
        ensures spelled { IfOk result (IsLexemeFrom self.old.whole self.old.at) }
        ensures quoted { IfOk result (λ lexeme. lexeme.kind ≡ Token.Text → lexeme.start + 2 ≤ lexeme.end) }
        ensures inside { IfOk result (λ lexeme. lexeme.kind ≡ Token.Text
            → IsInside (slice_range self.old.whole (lexeme.start + 1) (lexeme.end - 1))) }
    {
        let lexeme = token_at(self.bytes, self.start)?;
        self.at = lexeme.end;
        self.start = after_space(self.bytes, lexeme.end);
        Ok(lexeme)
    }

    /// The next byte that isn't white space, and `None` where only white space is left.
    #[inline(always)]
    pub fn next_byte(&self) -> Option<u8>
        ensures exact { result ≡ byte_from self.now.whole self.now.at }
        ensures first { (b : ℕ) → (result ≡ Some b)
            ↔ ((place : ℕ) × IsFirstByteFrom self.now.whole self.now.at place
            × (slice_index self.now.whole place ≡ b)) }
        ensures none { (result ≡ None) ↔ AllPass is_space (drop self.now.at self.now.whole) }
    {
        self.bytes.get(self.start).copied()
    }
}

#[inline(always)]
fn is_space(byte: u8) -> bool
    ensures { result ≡ is_space byte }
{
    // Most white space is the space itself.
    byte == b' ' || matches!(byte, 9..=13)
}

#[inline(always)]
fn in_run(byte: u8) -> bool
    ensures { result ≡ in_run byte }
{
    // All letters, digits and signs of numbers but the plus are between these two.
    matches!(byte, b'-'..=b'z') || !matches!(byte, 9..=13 | b' ' | b'"' | b'{' | b'}' | b',')
}

#[inline(always)]
fn begins_word(byte: u8) -> bool
    ensures { result ≡ begins_word byte }
{
    byte.is_ascii_alphabetic()
}

#[inline(always)]
fn begins_number(byte: u8) -> bool
    ensures { result ≡ begins_number byte }
{
    matches!(byte, b'0'..=b'9' | b'+' | b'-' | b'.')
}

/// The offset of the first byte from `at` on that isn't white space, or the end.
#[inline(always)]
fn after_space(bytes: &[u8], at: usize) -> usize
    requires { at ≤ length bytes.now }
    ensures value { result ≡ after_space bytes.now at }
    ensures within { result ≤ length bytes.now }
{
    at + space_len(&bytes[at..])
}

/// How many bytes of white space stand at the front.
#[inline(always)]
fn space_len(bytes: &[u8]) -> usize
    ensures value { result ≡ prefix_len is_space bytes.now }
    ensures within { result ≤ length bytes.now }
{
    if is_one_space(bytes) {
        return 1;
    }
    for i in 0..bytes.len() {
        if !is_space(bytes[i]) {
            return i;
        }
    }
    bytes.len()
}

/// Whether white space stands at the front and a byte above all white space behind it, as between most tokens.
#[inline(always)]
fn is_one_space(bytes: &[u8]) -> bool
    ensures one { IsTrue result → prefix_len is_space bytes.now ≡ 1 }
    ensures some { IsTrue result → 1 ≤ length bytes.now }
{
    bytes.len() > 1 && bytes[1] > b' ' && is_space(bytes[0])
}

/// How many bytes of a run stand at the front.
#[inline(always)]
fn run_len(bytes: &[u8]) -> usize
    ensures value { result ≡ prefix_len in_run bytes.now }
    ensures within { result ≤ length bytes.now }
{
    if is_one_byte(bytes) {
        return 1;
    }
    for i in 0..bytes.len() {
        if !in_run(bytes[i]) {
            return i;
        }
    }
    bytes.len()
}

/// Whether a byte of a run stands at the front and white space behind it: most runs are one letter or one digit.
#[inline(always)]
fn is_one_byte(bytes: &[u8]) -> bool
    ensures one { IsTrue result → prefix_len in_run bytes.now ≡ 1 }
    ensures some { IsTrue result → 1 ≤ length bytes.now }
{
    bytes.len() > 1 && bytes[1] <= b' ' && is_space(bytes[1]) && in_run(bytes[0])
}

/// The token that begins at `start`, or the end.
#[inline(always)]
fn token_at(bytes: &[u8], start: usize) -> Result<Lexeme, LexFault>
    requires { start ≤ length bytes.now }
    ensures value { result ≡ token_at start (drop start bytes.now) }
    ensures within { IfOk result (λ lexeme. lexeme.end ≤ length bytes.now) }
{
    if start == bytes.len() {
        return Ok(Lexeme {
            kind: Token::End,
            start,
            end: start,
        });
    }
    match bytes[start] {
        b'"' => text_at(bytes, start),
        b'{' => Ok(Lexeme {
            kind: Token::Open,
            start,
            end: start + 1,
        }),
        b'}' => Ok(Lexeme {
            kind: Token::Close,
            start,
            end: start + 1,
        }),
        b',' => Ok(Lexeme {
            kind: Token::Comma,
            start,
            end: start + 1,
        }),
        byte if begins_word(byte) => Ok(run_at(bytes, start, Token::Word)),
        byte if begins_number(byte) => Ok(run_at(bytes, start, Token::Number)),
        _ => Err(LexFault::Syntax { at: start }),
    }
}

/// The run that begins at `start`, as a token of this kind.
#[inline(always)]
fn run_at(bytes: &[u8], start: usize, kind: Token) -> Lexeme
    requires { start ≤ length bytes.now }
    ensures value { result ≡ span kind start (start + prefix_len in_run (drop start bytes.now)) }
    ensures within { result.end ≤ length bytes.now }
{
    let len = run_len(&bytes[start..]);
    Lexeme {
        kind,
        start,
        end: start + len,
    }
}

/// The text whose opening mark is at `start`.
#[inline(always)]
fn text_at(bytes: &[u8], start: usize) -> Result<Lexeme, LexFault>
    requires there { start < length bytes.now }
    requires mark { slice_index bytes.now start ≡ 34 }
    ensures value { result ≡ text_from start (closing_from (start + 1) (slice_index bytes.now start)
        (drop (start + 1) bytes.now)) }
    ensures within { IfOk result (λ lexeme. lexeme.end ≤ length bytes.now) }
{
    if is_empty_text(bytes, start) {
        return Ok(Lexeme {
            kind: Token::Text,
            start,
            end: start + 2,
        });
    }
    match closing_mark(bytes, start) {
        Some(close) => Ok(Lexeme {
            kind: Token::Text,
            start,
            end: close + 1,
        }),
        None => Err(LexFault::Unclosed { at: start }),
    }
}

/// Whether the mark at `start` is followed by another one at once. Most nodes have no name.
#[inline(always)]
fn is_empty_text(bytes: &[u8], start: usize) -> bool
    requires { start < length bytes.now }
    ensures { IsTrue result ↔ (start + 1 < length bytes.now) × (slice_index bytes.now (start + 1) ≡ 34) }
{
    start + 1 < bytes.len() && bytes[start + 1] == b'"'
}

/// The offset of the first quotation mark behind `start` that no backslash stands right before.
#[inline(never)]
fn closing_mark(bytes: &[u8], start: usize) -> Option<usize>
    requires { start < length bytes.now }
    ensures value { result ≡ closing_from (start + 1) (slice_index bytes.now start) (drop (start + 1) bytes.now) }
    ensures within { IfSome result (λ close. close < length bytes.now) }
{
    let mut at = start + 1;
    while let Some(found) = memchr(b'"', &bytes[at..]) {
        let mark = at + found;
        if bytes[mark - 1] != b'\\' {
            return Some(mark);
        }
        at = mark + 1;
    }
    None
}
