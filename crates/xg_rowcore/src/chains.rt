//! Chains through the rows of each stripe.
ghost use Rattle.std.specs.Prelude.{◌≡◌, ◌<◌, ◌≤◌, ◌^◌, ℕ, [], length, slice_index, IfOk};
ghost use Rattle.xg_rowcore.specs.Chains.{AreChains, IsNextOf, KeepsChains};

use crate::places::stripe_of;
use def_sums::MOST_STRIPES;
use std::alloc::{AllocError, Global};

/// For each stripe a chain through the places of its rows, for rows that stand elsewhere.
#[derive(Drop)]
pub(crate) struct Chains {
    /// How many stripes there are, or 0 where the chains are of no rows.
    pub(crate) stripes: u32,
    /// For each stripe the place of its first row.
    pub(crate) first: Vec<u32>,
    /// After each place the next of the same stripe.
    pub(crate) next: Vec<u32>,
}

impl Chains {
    /// No chains, and memory for those through so many rows.
    pub(crate) fn new(alloc: Global, room: usize) -> Result<Chains, AllocError>
        ensures kept { IfOk result (λ c. KeepsChains [] room c.stripes c.first.items c.next.items) }
        ensures none { IfOk result (λ c. c.stripes ≡ 0) }
    {
        let first = vec![in alloc; 0u32; MOST_STRIPES as usize]?;
        let next = vec![in alloc; 0u32; room]?;
        Ok(Chains {
            stripes: 0,
            first,
            next,
        })
    }

    /// Links the places of these rows.
    pub(crate) fn link(&mut self, rows: &[u32], stripes: u32)
        requires stripes { (1 ≤ stripes) × (stripes ≤ length self.old.first.items) }
        requires room { length rows.now ≤ length self.old.next.items }
        requires few { length rows.now < 2 ^ 32 }
        ensures linked { AreChains 0 stripes rows.now self.new.first.items self.new.next.items }
        ensures stripes { self.new.stripes ≡ stripes }
        ensures first { length self.new.first.items ≡ length self.old.first.items }
        ensures next { length self.new.next.items ≡ length self.old.next.items }
    {
        self.stripes = stripes;
        self.first.fill(rows.len() as u32);
        link_places(rows, stripes, &mut self.first, &mut self.next);
    }

    /// Takes the chains of others, which are through no more places.
    pub(crate) fn copy(&mut self, others: &Chains)
        requires first { length others.now.first.items ≡ length self.old.first.items }
        requires room { length others.now.next.items ≤ length self.old.next.items }
        ensures stripes { self.new.stripes ≡ others.now.stripes }
        ensures first { self.new.first.items ≡ others.now.first.items }
        ensures next { (i : ℕ) → i < length others.now.next.items
            → slice_index self.new.next.items i ≡ slice_index others.now.next.items i }
        ensures count { length self.new.next.items ≡ length self.old.next.items }
    {
        self.stripes = others.stripes;
        self.first.copy_from_slice(&others.first);
        copy_front(&others.next, &mut self.next);
    }
}

// Copies places over the first ones.
fn copy_front(from: &[u32], into: &mut [u32])
    requires { length from.now ≤ length into.old }
    ensures front { (i : ℕ) → i < length from.now → slice_index into.new i ≡ slice_index from.now i }
    ensures count { length into.new ≡ length into.old }
{
    for i in 0..from.len() {
        into[i] = from[i];
    }
}

// Goes from the last row to the first, where each stripe's chain begins at the number of rows.
fn link_places(rows: &[u32], stripes: u32, first: &mut [u32], next: &mut [u32])
    requires stripes { (1 ≤ stripes) × (stripes ≤ length first.old) }
    requires room { length rows.now ≤ length next.old }
    requires few { length rows.now < 2 ^ 32 }
    requires none { (stripe : ℕ) → stripe < stripes → slice_index first.old stripe ≡ length rows.now }
    ensures { AreChains 0 stripes rows.now first.new next.new }
{
    for i in (0..rows.len()).rev() {
        let stripe = stripe_of(rows[i], stripes) as usize;
        next[i] = first[stripe];
        first[stripe] = i as u32;
    }
}

/// The first place from one on whose row lies in the stripe, or the number of rows.
pub(crate) fn seek(rows: &[u32], stripes: u32, stripe: u32, from: usize) -> usize
    requires stripe { stripe < stripes }
    requires from { from ≤ length rows.now }
    ensures { IsNextOf stripes stripe rows.now from result }
{
    for i in from..rows.len() {
        if stripe_of(rows[i], stripes) == stripe {
            return i;
        }
    }
    rows.len()
}
