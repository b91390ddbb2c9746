//! Numbers in the order in which they come, and where each stands.
ghost use Rattle.std.specs.Prelude.{◌≡◌, ℕ, ◌+◌, ◌<◌, ◌≤◌, ◌^◌, if◌then◌else◌, slice_index, [], ◌∷◌, ◌++◌, None, Some};
ghost use Rattle.std.specs.Prelude.{length, nat_eq, position, slice_get, IfSome, OnOk, OnErr};
ghost use Rattle.xg_game.specs.Marks.{SetsMark, mark_of, marked};

use crate::seed::Seed;
use indexmap::IndexMap;
use std::alloc::{AllocError, Global};
use std::marker::Model;
use std::mem::replace;

/// How many places an array of marks may have for each number, and how many beside them.
const PLACES_EACH: u64 = 4;

const SPARE_PLACES: u64 = 64;

/// Numbers, each of which stands once.
///
/// The mark of a number is 0, or one more than the place where it stands. Numbers that are small beside how many there
/// are have their marks in an array, and the others in a hash table, which takes its seed from the file that the first
/// of them stands in. So small numbers need no seed, and no numbers that are picked beforehand are slow to find.
#[derive(Drop)]
pub(crate) struct PlacedNumbers {
    numbers: Vec<u64>,
    near: Vec<u32>,
    far: IndexMap<u64, u32, Seed>,
    // None is greater, so that numbers that rise are new at once.
    greatest: u64,
}

impl Model for PlacedNumbers {
    ghost use Rattle.std.specs.Prelude.{ℕ, List};
    ghost use Rattle.xg_game.specs.Marks.{MarksUpTo};

    ghost Value = { List ℕ };

    ghost view = { λ n. n.numbers.items };

    ghost invariant = { λ n. MarksUpTo n.numbers.items n.near.items n.far n.greatest };
}

impl PlacedNumbers {
    /// No numbers.
    pub(crate) fn new(alloc: Global) -> PlacedNumbers
        ensures { result ≡ [] }
    {
        PlacedNumbers {
            numbers: Vec::new(alloc),
            near: Vec::new(alloc),
            far: IndexMap::with_hasher(alloc, Seed::of(b"")),
            greatest: 0,
        }
    }

    /// How many numbers there are.
    pub(crate) fn len(&self) -> usize
        ensures { result ≡ length self.now }
    {
        self.numbers.len()
    }

    /// The number at `i`.
    pub(crate) fn get(&self, i: usize) -> u64
        requires { i < length self.now }
        ensures { slice_get self.now i ≡ Some result }
    {
        self.numbers[i]
    }

    /// Where this number stands.
    #[inline(always)]
    pub(crate) fn find(&self, number: u64) -> Option<usize>
        ensures place { result ≡ position (nat_eq number) self.now }
        ensures within { IfSome result (λ i. i < length self.now) }
    {
        let near = near_mark(&self.near, number);
        let mark = if near != 0 || number > self.greatest {
            near
        } else {
            match self.far.get(&number) {
                Some(mark) => *mark,
                None => 0,
            }
        };
        if mark == 0 {
            return None;
        }
        Some(mark as usize - 1)
    }

    /// Puts a number last, which stands in this file.
    pub(crate) fn push(&mut self, alloc: Global, file: &[u8], number: u64) -> Result<(), AllocError>
        requires new { position (nat_eq number) self.old ≡ None }
        requires room { length self.old + 1 < 2 ^ 32 }
        ensures ok { OnOk result (self.new ≡ self.old ++ number ∷ []) }
        ensures err { OnErr result (self.new ≡ self.old) }
    {
        self.numbers.reserve(1)?;
        let mark = self.numbers.len() as u32 + 1;
        set_mark(alloc, file, &mut self.near, &mut self.far, number, mark)?;
        self.numbers.push_reserved(number);
        let greatest = self.greatest.max(number);
        self.greatest = greatest;
        Ok(())
    }
}

/// The mark of the array, where 0 stands behind its end.
#[inline(always)]
fn near_mark(near: &[u32], number: u64) -> u32
    ensures { result ≡ slice_index near.now number }
{
    if number < near.len() as u64 {
        near[number as usize]
    } else {
        0
    }
}

/// Gives a number that has none a mark.
fn set_mark(
    alloc: Global,
    file: &[u8],
    near: &mut Vec<u32>,
    far: &mut IndexMap<u64, u32, Seed>,
    number: u64,
    mark: u32,
) -> Result<(), AllocError>
    requires new { mark_of near.old.items far.old number ≡ 0 }
    requires some { 1 ≤ mark }
    ensures ok { OnOk result ((n : ℕ) → mark_of near.new.items far.new n
        ≡ (if nat_eq n number then mark else mark_of near.old.items far.old n)) }
    ensures err { OnErr result ((n : ℕ) → mark_of near.new.items far.new n ≡ mark_of near.old.items far.old n) }
{
    if number < PLACES_EACH * mark as u64 + SPARE_PLACES {
        return set_near(near, number as usize, mark);
    }
    if far.is_empty() {
        let empty = replace(far, IndexMap::with_hasher(alloc, Seed::of(file)));
        drop(empty);
    }
    far.insert(number, mark)?;
    Ok(())
}

/// Sets a mark of the array, which grows with 0 where it is too short.
fn set_near(near: &mut Vec<u32>, at: usize, mark: u32) -> Result<(), AllocError>
    requires { at + 1 < 2 ^ 62 }
    ensures ok { OnOk result (SetsMark near.old.items near.new.items at mark) }
    ensures err { OnErr result (near.new.items ≡ near.old.items) }
{
    if at >= near.len() {
        let Ok(()) = near.resize(at + 1, 0) else {
            return Err(AllocError);
        };
    }
    near[at] = mark;
    Ok(())
}
