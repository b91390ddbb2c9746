//! Many texts in little memory.
ghost use Rattle.std.specs.Prelude.{◌≡◌, ◌<◌, ◌≤◌, ◌-◌, [], ◌∷◌, ◌++◌, Some, drop, length, slice_get, slice_index};
ghost use Rattle.std.specs.Prelude.{take, OnOk, OnErr};

use std::alloc::{AllocError, Global};
use std::marker::Model;
use xg_lex::TextView;

/// The greatest number of bytes of all texts: more count as more than there is memory for.
const MOST_TEXT_BYTES: u64 = 0xFFFF_FFFF;

/// Texts in their order, one behind the other: where one ends, the next one begins.
#[derive(Drop)]
pub(crate) struct Texts {
    bytes: Vec<u8>,
    ends: Vec<u32>,
}

impl Model for Texts {
    ghost use Rattle.std.specs.Prelude.{ℕ, List, length};
    ghost use Rattle.xg_game.specs.Texts.{AreEnds, cut_from};

    ghost Value = { List (List ℕ) };

    ghost view = { λ t. cut_from 0 t.ends.items t.bytes.items };

    ghost invariant = { λ t. AreEnds 0 t.ends.items (length t.bytes.items) };
}

impl Texts {
    /// No texts.
    pub(crate) fn new(alloc: Global) -> Texts
        ensures { result ≡ [] }
    {
        Texts {
            bytes: Vec::new(alloc),
            ends: Vec::new(alloc),
        }
    }

    /// How many texts there are.
    pub(crate) fn len(&self) -> usize
        ensures { result ≡ length self.now }
    {
        self.ends.len()
    }

    /// The text at `i`, which counts from 0.
    pub(crate) fn get(&self, i: usize) -> &[u8]
        requires { i < length self.now }
        ensures { slice_get self.now i ≡ Some result.now }
    {
        &self.bytes[start_of(&self.ends, i)..self.ends[i] as usize]
    }

    /// Puts a text last. After an error the texts are as they were.
    #[inline(always)]
    pub(crate) fn push(&mut self, text: &[u8]) -> Result<(), AllocError>
        ensures ok { OnOk result (self.new ≡ self.old ++ text.now ∷ []) }
        ensures err { OnErr result (self.new ≡ self.old) }
    {
        self.ends.reserve(1)?;
        let end = self.bytes.len() as u64 + text.len() as u64;
        if end > MOST_TEXT_BYTES {
            return Err(AllocError);
        }
        extend(&mut self.bytes, text)?;
        self.ends.push_reserved(end as u32);
        Ok(())
    }

    /// Puts a text that stands elsewhere last. After an error the texts are as they were.
    #[inline(always)]
    pub(crate) fn push_view(&mut self, alloc: Global, text: &TextView<'_>) -> Result<(), AllocError>
        ensures ok { OnOk result (self.new ≡ self.old ++ text.now ∷ []) }
        ensures err { OnErr result (self.new ≡ self.old) }
    {
        match text.plain() {
            Some(bytes) => self.push(bytes),
            None => self.push_escaped(alloc, &text.again()),
        }
    }

    #[inline(never)]
    fn push_escaped(&mut self, alloc: Global, text: &TextView<'_>) -> Result<(), AllocError>
        ensures ok { OnOk result (self.new ≡ self.old ++ text.now ∷ []) }
        ensures err { OnErr result (self.new ≡ self.old) }
    {
        let text = text.to_text(alloc)?;
        self.push(text.bytes())
    }
}

/// Puts the bytes of a text last. Most nodes have no name, and an empty one costs nothing.
#[inline(always)]
fn extend(bytes: &mut Vec<u8>, text: &[u8]) -> Result<(), AllocError>
    ensures ok { OnOk result (bytes.new.items ≡ bytes.old.items ++ text.now) }
    ensures err { OnErr result (bytes.new.items ≡ bytes.old.items) }
{
    if text.is_empty() {
        return Ok(());
    }
    bytes.extend_from_slice(text)
}

/// Where the text at `i` begins: where the one before it ends.
fn start_of(ends: &[u32], i: usize) -> usize
    requires { i ≤ length ends.now }
    ensures { result ≡ slice_index (0 ∷ ends.now) i }
{
    if i == 0 {
        return 0;
    }
    ends[i - 1] as usize
}
