//! Amounts in 64 bits as long as each has room there, else in 128.
ghost use Rattle.std.specs.Prelude.{◌≡◌, ◌<◌, ◌≤◌, ◌+◌, ◌^◌, ◌++◌, ◌+ℤ◌, [], ◌∷◌, length, replicate, pos, unsigned_abs};
ghost use Rattle.std.specs.Prelude.{IfOk, IfSome, IfNone, slice_index_or, slice_set, vec_capacity, true, false};
ghost use Rattle.xg_rowcore.specs.Amounts.{in_width};

use std::alloc::{AllocError, Global};
use std::marker::Model;

/// Amounts, and the room for them. All are in 64 bits until one has no room there, and from then on in 128.
#[derive(Drop)]
pub(crate) struct Amounts {
    small: Vec<i64>,
    wide: Vec<i128>,
    is_wide: bool,
    room: usize,
}

impl Model for Amounts {
    ghost use Rattle.std.specs.Prelude.{◌≤◌, length, vec_capacity};
    ghost use Rattle.xg_rowcore.specs.Amounts.{AmountList, in_width};

    ghost Value = { AmountList };

    ghost view = { λ a. record { list = in_width a.is_wide a.small.items a.wide.items; room = a.room } };

    ghost invariant = { λ a. (a.room ≤ vec_capacity a.small) × (a.room ≤ vec_capacity a.wide)
        × (length (in_width a.is_wide a.small.items a.wide.items) ≤ a.room) };
}

impl Amounts {
    pub(crate) fn new(alloc: Global, room: usize) -> Result<Amounts, AllocError>
        ensures { IfOk result (λ amounts. amounts ≡ record { list = []; room = room }) }
    {
        let small = Vec::with_capacity(alloc, room)?;
        let wide = Vec::with_capacity(alloc, room)?;
        Ok(Amounts {
            small,
            wide,
            is_wide: false,
            room,
        })
    }

    pub(crate) fn room(&self) -> usize
        ensures { result ≡ self.now.room }
    {
        self.room
    }

    pub(crate) fn len(&self) -> usize
        ensures { result ≡ length self.now.list }
    {
        if self.is_wide {
            self.wide.len()
        } else {
            self.small.len()
        }
    }

    pub(crate) fn get(&self, i: usize) -> i128
        requires { i < length self.now.list }
        ensures { result ≡ slice_index_or self.now.list i (pos 0) }
    {
        if self.is_wide {
            self.wide[i]
        } else {
            self.small[i] as i128
        }
    }

    /// So many amounts of 0.
    pub(crate) fn reset(&mut self, count: usize)
        requires { count ≤ self.old.room }
        ensures { self.new ≡ record { list = replicate count (pos 0); room = self.old.room } }
    {
        self.is_wide = false;
        fill_zeros(&mut self.small, count);
    }

    pub(crate) fn push(&mut self, amount: i128)
        requires { length self.old.list < self.old.room }
        ensures { self.new ≡ record { list = self.old.list ++ amount ∷ []; room = self.old.room } }
    {
        match small_or_widen(amount, &self.small, &mut self.wide, &mut self.is_wide) {
            Some(small) => self.small.push_reserved(small),
            None => self.wide.push_reserved(amount),
        }
    }

    pub(crate) fn put(&mut self, i: usize, amount: i128)
        requires { i < length self.old.list }
        ensures { self.new ≡ record { list = slice_set self.old.list i amount; room = self.old.room } }
    {
        match small_or_widen(amount, &self.small, &mut self.wide, &mut self.is_wide) {
            Some(small) => self.small[i] = small,
            None => self.wide[i] = amount,
        }
    }

    pub(crate) fn add(&mut self, i: usize, more: i128)
        requires there { i < length self.old.list }
        requires fits { unsigned_abs (slice_index_or self.old.list i (pos 0) +ℤ more) < 2 ^ 127 }
        ensures { self.new ≡ record {
          list = slice_set self.old.list i (slice_index_or self.old.list i (pos 0) +ℤ more);
          room = self.old.room;
        } }
    {
        self.put(i, plus(self.get(i), more));
    }
}

/// The sum, which has room in 128 bits.
pub(crate) fn plus(a: i128, b: i128) -> i128
    requires { unsigned_abs (a +ℤ b) < 2 ^ 127 }
    ensures { result ≡ a +ℤ b }
{
    a + b
}

fn fill_zeros(small: &mut Vec<i64>, count: usize)
    requires { count ≤ vec_capacity small.old }
    ensures items { small.new.items ≡ replicate count (pos 0) }
    ensures room { vec_capacity small.old ≤ vec_capacity small.new }
{
    small.clear();
    let _fits = small.resize(count, 0);
}

// The amount in 64 bits, where all others are and it has room there. Else all are in 128 bits from then on.
#[inline(always)]
fn small_or_widen(
    amount: i128,
    small: &[i64],
    wide: &mut Vec<i128>,
    is_wide: &mut bool,
) -> Option<i64>
    requires { is_wide.old ≡ false → length small.now ≤ vec_capacity wide.old }
    ensures small { IfSome result (λ a. (a ≡ amount) × (is_wide.new ≡ false)) }
    ensures wide { IfNone result (is_wide.new ≡ true) }
    ensures same { in_width is_wide.new small.now wide.new.items ≡ in_width is_wide.old small.now wide.old.items }
    ensures room { vec_capacity wide.new ≡ vec_capacity wide.old }
{
    if *is_wide {
        return None;
    }
    if let Ok(in_small) = i64::try_from(amount) {
        return Some(in_small);
    }
    widen_into(small, wide);
    *is_wide = true;
    None
}

fn widen_into(small: &[i64], wide: &mut Vec<i128>)
    requires { length small.now ≤ vec_capacity wide.old }
    ensures items { wide.new.items ≡ small.now }
    ensures room { vec_capacity wide.new ≡ vec_capacity wide.old }
{
    wide.clear();
    for i in 0..small.len() {
        wide.push_reserved(small[i] as i128);
    }
}
