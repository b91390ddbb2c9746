//! One player's sums over the leaves, by the groups of player one.
ghost use Rattle.std.specs.Prelude.{◌≡◌, ℕ, ◌+◌, ◌*◌, ◌<◌, ◌≤◌, ◌+ℤ◌, unsigned_abs, All};
ghost use Rattle.std.specs.Prelude.{length, map, slice_index};
ghost use Rattle.def_sums.specs.Limits.{past_number};
ghost use Rattle.def_plan.specs.FormRows.{amount_of};
ghost use Rattle.xg_jobs.specs.Groups.{group_at, group_mass, group_part, group_sum, groups_mass, parts_sum};

use xg_jobs::{GroupEntry, Row, add_product, put, sum_group};

/// Writes the sum of each group against player two's numbers.
pub(crate) fn sum_groups<E: GroupEntry, R: Row>(
    starts: &[u32],
    entries: &[E],
    two: &[u64],
    own: &mut [R],
)
    ghost most: { ℕ }
    requires ordered { (s : ℕ) → s < length own.old → slice_index starts.now s ≤ slice_index starts.now (s + 1) }
    requires inside { (s : ℕ) → s < length own.old → slice_index starts.now (s + 1) ≤ length entries.now }
    requires all_starts { length own.old + 1 ≡ length starts.now }
    requires within { (s : ℕ) → s < length own.old
        → All (λ e. e.other < length two.now) (group_at starts.now (map E.leaf entries.now) s) }
    requires small_two { (b : ℕ) → slice_index two.now b ≤ most }
    requires small { most < past_number }
    requires room { groups_mass starts.now (map E.leaf entries.now) (length own.old) * most < R.limit }
    ensures own { (s : ℕ) → s < length own.old → amount_of (map R.amount own.new) s
        ≡ group_sum two.now (group_at starts.now (map E.leaf entries.now) s) }
{
    for s in 0..own.len() {
        let group = &entries[starts[s] as usize..starts[s + 1] as usize];
        put(own, s, sum_group(group, two));
    }
}

/// Adds to each row of player two what the groups bring to it against player one's numbers. A group whose number is 0
/// brings nothing.
pub(crate) fn spread_groups<E: GroupEntry, R: Row>(
    starts: &[u32],
    entries: &[E],
    one: &[u64],
    other: &mut [R],
)
    ghost most: { ℕ }
    requires ordered { (s : ℕ) → s < length one.now → slice_index starts.now s ≤ slice_index starts.now (s + 1) }
    requires inside { (s : ℕ) → s < length one.now → slice_index starts.now (s + 1) ≤ length entries.now }
    requires all_starts { length one.now + 1 ≡ length starts.now }
    requires within { (s : ℕ) → s < length one.now
        → All (λ e. e.other < length other.old) (group_at starts.now (map E.leaf entries.now) s) }
    requires small_one { (s : ℕ) → slice_index one.now s ≤ most }
    requires small { most < past_number }
    requires room { (b : ℕ) → unsigned_abs (amount_of (map R.amount other.old) b)
        + groups_mass starts.now (map E.leaf entries.now) (length one.now) * most < R.limit }
    ensures other { (b : ℕ) → amount_of (map R.amount other.new) b
        ≡ amount_of (map R.amount other.old) b +ℤ parts_sum starts.now (map E.leaf entries.now) one.now (length one.now)
        b }
{
    for s in 0..one.len() {
        let group = &entries[starts[s] as usize..starts[s + 1] as usize];
        if one[s] != 0 {
            add_parts(group, one[s], other);
        }
    }
}

// Adds each leaf of a group to the row of its sequence of player two.
fn add_parts<E: GroupEntry, R: Row>(group: &[E], number: u64, other: &mut [R])
    ghost most: { ℕ }
    requires within { All (λ e. e.other < length other.old) (map E.leaf group.now) }
    requires small_number { number ≤ most }
    requires small { most < past_number }
    requires room { (b : ℕ) → unsigned_abs (amount_of (map R.amount other.old) b)
        + group_mass (map E.leaf group.now) * most < R.limit }
    ensures other { (b : ℕ) → amount_of (map R.amount other.new) b
        ≡ amount_of (map R.amount other.old) b +ℤ group_part number (map E.leaf group.now) b }
{
    for e in group {
        let b = e.other() as usize;
        let w = e.weight();
        add_product(other, b, w, number);
    }
}
