//! Both players' sums over the leaves, in one pass over the groups of player one.
ghost use Rattle.std.specs.Prelude.{◌≡◌, ℕ, ◌+◌, ◌*◌, ◌<◌, ◌≤◌, ℤ, ◌+ℤ◌, unsigned_abs, All};
ghost use Rattle.std.specs.Prelude.{length, map, slice_index};
ghost use Rattle.def_sums.specs.Limits.{past_number};
ghost use Rattle.def_plan.specs.FormRows.{amount_of};
ghost use Rattle.xg_jobs.specs.Groups.{group_at, group_mass, group_part, group_sum, groups_mass, parts_sum};

use crate::entry::GroupEntry;
use crate::row::{Row, add_product, put};

/// Writes the sum of each group against player two's numbers, and adds to each row of player two what the groups bring
/// to it against player one's.
pub(crate) fn both_rows<E: GroupEntry, R: Row>(
    starts: &[u32],
    entries: &[E],
    one: &[u64],
    two: &[u64],
    own: &mut [R],
    other: &mut [R],
)
    ghost most: { ℕ }
    requires ordered { (s : ℕ) → s < length own.old → slice_index starts.now s ≤ slice_index starts.now (s + 1) }
    requires inside { (s : ℕ) → s < length own.old → slice_index starts.now (s + 1) ≤ length entries.now }
    requires all_starts { length own.old + 1 ≡ length starts.now }
    requires ones { length own.old ≡ length one.now }
    requires twos { length other.old ≡ length two.now }
    requires within { (s : ℕ) → s < length own.old
        → All (λ e. e.other < length two.now) (group_at starts.now (map E.leaf entries.now) s) }
    requires small_one { (s : ℕ) → slice_index one.now s ≤ most }
    requires small_two { (b : ℕ) → slice_index two.now b ≤ most }
    requires small { most < past_number }
    requires room { (b : ℕ) → unsigned_abs (amount_of (map R.amount other.old) b)
        + groups_mass starts.now (map E.leaf entries.now) (length own.old) * most < R.limit }
    ensures own { (s : ℕ) → s < length own.old → amount_of (map R.amount own.new) s
        ≡ group_sum two.now (group_at starts.now (map E.leaf entries.now) s) }
    ensures other { (b : ℕ) → amount_of (map R.amount other.new) b
        ≡ amount_of (map R.amount other.old) b +ℤ parts_sum starts.now (map E.leaf entries.now) one.now (length own.old)
        b }
{
    for s in 0..own.len() {
        let group = &entries[starts[s] as usize..starts[s + 1] as usize];
        let sum = add_group(group, one[s], two, other);
        put(own, s, sum);
    }
}

// Adds a group's parts to the rows of player two; the sum for the group's own sequence is the answer.
fn add_group<E: GroupEntry, R: Row>(group: &[E], number: u64, two: &[u64], other: &mut [R]) -> R
    ghost most: { ℕ }
    requires within { All (λ e. e.other < length two.now) (map E.leaf group.now) }
    requires twos { length other.old ≡ length two.now }
    requires small_number { number ≤ most }
    requires small_two { (b : ℕ) → slice_index two.now b ≤ most }
    requires small { most < past_number }
    requires room { (b : ℕ) → unsigned_abs (amount_of (map R.amount other.old) b) + group_mass (map E.leaf group.now)
        * most < R.limit }
    ensures own { R.amount result ≡ group_sum two.now (map E.leaf group.now) }
    ensures other { (b : ℕ) → amount_of (map R.amount other.new) b
        ≡ amount_of (map R.amount other.old) b +ℤ group_part number (map E.leaf group.now) b }
{
    if number == 0 {
        sum_group(group, two)
    } else {
        spread_group(group, number, two, other)
    }
}

/// The sum over a group's leaves.
pub fn sum_group<E: GroupEntry, R: Row>(group: &[E], two: &[u64]) -> R
    ghost most: { ℕ }
    requires within { All (λ e. e.other < length two.now) (map E.leaf group.now) }
    requires small_two { (b : ℕ) → slice_index two.now b ≤ most }
    requires small { most < past_number }
    requires room { group_mass (map E.leaf group.now) * most < R.limit }
    ensures { R.amount result ≡ group_sum two.now (map E.leaf group.now) }
{
    let mut sum = R::zero();
    for e in group {
        let n = two[e.other() as usize];
        let w = e.weight();
        sum = sum.plus_product(w, n);
    }
    sum
}

// The same, and each leaf is added to the row of its sequence of player two.
fn spread_group<E: GroupEntry, R: Row>(group: &[E], number: u64, two: &[u64], other: &mut [R]) -> R
    ghost most: { ℕ }
    requires within { All (λ e. e.other < length two.now) (map E.leaf group.now) }
    requires twos { length other.old ≡ length two.now }
    requires small_number { number ≤ most }
    requires small_two { (b : ℕ) → slice_index two.now b ≤ most }
    requires small { most < past_number }
    requires room { (b : ℕ) → unsigned_abs (amount_of (map R.amount other.old) b) + group_mass (map E.leaf group.now)
        * most < R.limit }
    ensures own { R.amount result ≡ group_sum two.now (map E.leaf group.now) }
    ensures other { (b : ℕ) → amount_of (map R.amount other.new) b
        ≡ amount_of (map R.amount other.old) b +ℤ group_part number (map E.leaf group.now) b }
{
    let mut sum = R::zero();
    for e in group {
        let b = e.other() as usize;
        let w = e.weight();
        sum = sum.plus_product(w, two[b]);
        add_product(other, b, w, number);
    }
    sum
}
