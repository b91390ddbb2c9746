//! Texts of a file: the bytes that stand for them, and views of them where they stand.
ghost use Rattle.std.specs.Prelude.{◌≡◌, ◌+◌, ◌<◌, ◌≤◌, ◌==◌, ◌&&◌, List, drop, length, slice_index, IfOk, IfSome};
ghost use Rattle.std.specs.Prelude.{nat_eq, false, None, Contains};
ghost use Rattle.std.specs.Cmp.Lexicographic.{pointwise};
ghost use Rattle.def_file_tokens.specs.Texts.{IsInside, EndsPlainly, begins_with_mark, unescaped};

use memchr::memchr;
use std::alloc::{AllocError, Global};
use std::marker::Model;

/// The bytes that the inside of a text token stands for. The last one is never a backslash.
#[derive(Drop)]
pub struct Text {
    bytes: Vec<u8>,
}

impl Model for Text {
    ghost use Rattle.std.specs.Prelude.{ℕ, List};
    ghost use Rattle.def_file_tokens.specs.Texts.{EndsPlainly};

    ghost Value = { List ℕ };

    ghost view = { λ t. t.bytes.items };

    ghost invariant = { λ t. EndsPlainly t.bytes.items };
}

impl Text {
    /// The bytes.
    pub fn bytes(&self) -> &[u8]
        ensures value { result.now ≡ self.now }
        ensures plain_end { EndsPlainly self.now }
    {
        &self.bytes
    }

    /// The text, to be read where it stands.
    pub fn view(&self) -> TextView<'_>
        ensures { result ≡ self.now }
    {
        TextView {
            bytes: &self.bytes,
            first_mark: self.bytes.len(),
        }
    }
}

/// A text that stands elsewhere: in a `Text`, or in a file, where quotation marks may have a backslash before them.
#[derive(Drop)]
pub struct TextView<'a> {
    bytes: &'a [u8],
    // If the bytes are an inside with quotation marks, where the first of them stands, and else how many bytes there
    // are.
    first_mark: usize,
}

impl<'a> Model for TextView<'a> {
    ghost use Rattle.std.specs.Prelude.{ℕ, List, length, nat_lt};
    ghost use Rattle.xg_lex.specs.Viewed.{IsViewed, viewed};

    ghost Value = { List ℕ };

    ghost view = { λ t. viewed (nat_lt t.first_mark (length t.bytes.now)) t.bytes.now };

    ghost invariant = { λ t. IsViewed (nat_lt t.first_mark (length t.bytes.now)) t.bytes.now };
}

impl<'a> TextView<'a> {
    /// The text that the inside of a text token stands for.
    #[inline(always)]
    pub fn of(raw: &'a [u8]) -> TextView<'a>
        requires { IsInside raw.now }
        ensures { result ≡ unescaped raw.now }
    {
        TextView {
            bytes: raw,
            first_mark: first_mark(raw),
        }
    }

    /// The same text.
    #[inline(always)]
    pub fn again(&self) -> TextView<'a>
        ensures { result ≡ self.now }
    {
        TextView {
            bytes: self.bytes,
            first_mark: self.first_mark,
        }
    }

    /// Whether these are the text's bytes.
    #[inline]
    pub fn is(&self, bytes: &[u8]) -> bool
        ensures { result ≡ pointwise nat_eq bytes.now self.now }
    {
        if self.first_mark < self.bytes.len() {
            return stands_for(self.bytes, bytes);
        }
        bytes == self.bytes
    }

    /// The text's bytes, where they stand somewhere as they are.
    #[inline]
    pub fn plain(&self) -> Option<&'a [u8]>
        ensures some { IfSome result (λ bytes. bytes.now ≡ self.now) }
        // Only a text with a quotation mark doesn't.
        ensures none { result ≡ None → Contains self.now 34 }
    {
        if self.first_mark < self.bytes.len() {
            return None;
        }
        Some(self.bytes)
    }

    /// A text of the same bytes.
    pub fn to_text(&self, alloc: Global) -> Result<Text, AllocError>
        ensures { IfOk result (λ text. text ≡ self.now) }
    {
        if self.first_mark < self.bytes.len() {
            return unescape(alloc, self.bytes);
        }
        let bytes = self.bytes.to_vec(alloc)?;
        Ok(Text { bytes })
    }
}

/// Where the first quotation mark stands, and how many bytes there are if none does. Most nodes have no name, and no
/// byte.
#[inline(always)]
fn first_mark(raw: &[u8]) -> usize
    ensures plain { length raw.now ≤ result → IsInside raw.now → unescaped raw.now ≡ raw.now }
    ensures marked { result < length raw.now → Contains (unescaped raw.now) 34 }
{
    if raw.is_empty() {
        return 0;
    }
    match memchr(b'"', raw) {
        Some(mark) => mark,
        None => raw.len(),
    }
}

/// Whether an inside stands for these bytes.
#[inline(never)]
fn stands_for(raw: &[u8], bytes: &[u8]) -> bool
    requires { IsInside raw.now }
    ensures { result ≡ pointwise nat_eq bytes.now (unescaped raw.now) }
{
    let mut at = 0;
    for i in 0..raw.len() {
        if is_escape(raw, i) {
            continue;
        }
        if at == bytes.len() {
            return false;
        }
        if bytes[at] != raw[i] {
            return false;
        }
        at += 1;
    }
    at == bytes.len()
}

/// Whether a backslash stands at `i`, right before a quotation mark.
fn is_escape(raw: &[u8], i: usize) -> bool
    requires { i < length raw.now }
    ensures { result ≡ (slice_index raw.now i == 92) && begins_with_mark (drop (i + 1) raw.now) }
{
    raw[i] == b'\\' && i + 1 < raw.len() && raw[i + 1] == b'"'
}

/// The text that the inside of a text token stands for: `\"` becomes a quotation mark, and all else stays.
#[inline]
pub fn unescape(alloc: Global, raw: &[u8]) -> Result<Text, AllocError>
    requires { IsInside raw.now }
    ensures { IfOk result (λ text. text ≡ unescaped raw.now) }
{
    let bytes = inside_bytes(alloc, raw)?;
    Ok(Text { bytes })
}

/// The bytes that an inside stands for. Most nodes have no name, and no byte.
#[inline]
fn inside_bytes(alloc: Global, raw: &[u8]) -> Result<Vec<u8>, AllocError>
    requires { IsInside raw.now }
    ensures { IfOk result (λ bytes. bytes.items ≡ unescaped raw.now) }
{
    if raw.is_empty() {
        return Ok(Vec::new(alloc));
    }
    without_escapes(alloc, raw)
}

/// The bytes with the backslash right before each quotation mark left out.
#[inline(never)]
fn without_escapes(alloc: Global, raw: &[u8]) -> Result<Vec<u8>, AllocError>
    requires { IsInside raw.now }
    ensures { IfOk result (λ bytes. bytes.items ≡ unescaped raw.now) }
{
    let mut bytes = Vec::with_capacity(alloc, raw.len())?;
    let mut at = 0;
    while let Some(found) = memchr(b'"', &raw[at..]) {
        let mark = at + found;
        bytes.extend_from_slice(&raw[at..mark - 1])?;
        bytes.push(b'"')?;
        at = mark + 1;
    }
    bytes.extend_from_slice(&raw[at..])?;
    Ok(bytes)
}
