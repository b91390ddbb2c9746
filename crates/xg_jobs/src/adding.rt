//! A range of groups, added up by one thread.
ghost use Rattle.std.specs.Prelude.{◌≡◌, ℕ, ◌<◌, pos, ◌+ℤ◌, unsigned_abs, length, map, replicate};
ghost use Rattle.def_plan.specs.FormRows.{amount_of};
ghost use Rattle.xg_jobs.specs.Adding.{AddsGroups, CanAddGroups};

use crate::both::both_rows;
use crate::entry::GroupEntry;
use crate::input::Groups;
use crate::row::{Row, add_row, put};

/// As `both_rows`, into rows of player two that begin with 0, whatever they were.
pub(crate) fn add_groups<E: GroupEntry, R: Row>(
    groups: &Groups<'_, E>,
    own: &mut [R],
    other: &mut [R],
)
    requires { CanAddGroups R.limit groups.now.starts.now (map E.leaf groups.now.entries.now) groups.now.one.now
        groups.now.two.now (length own.old) (replicate (length other.old) (pos 0)) }
    ensures { AddsGroups groups.now.starts.now (map E.leaf groups.now.entries.now) groups.now.one.now groups.now.two.now
        (map R.amount own.new) (replicate (length other.old) (pos 0)) (map R.amount other.new) }
{
    let Groups {
        starts,
        entries,
        one,
        two,
    } = *groups;
    clear(other);
    both_rows(starts, entries, one, two, own, other);
}

fn clear<R: Row>(rows: &mut [R])
    ensures { map R.amount rows.new ≡ replicate (length rows.old) (pos 0) }
{
    for b in 0..rows.len() {
        put(rows, b, R::zero());
    }
}

/// Adds to each row the other one.
pub(crate) fn add_rows<R: Row>(rows: &mut [R], others: &[R])
    requires count { length rows.old ≡ length others.now }
    requires room { (b : ℕ) → unsigned_abs (amount_of (map R.amount rows.old) b
        +ℤ amount_of (map R.amount others.now) b) < R.limit }
    ensures { (b : ℕ) → amount_of (map R.amount rows.new) b
        ≡ amount_of (map R.amount rows.old) b +ℤ amount_of (map R.amount others.now) b }
{
    for b in 0..rows.len() {
        add_row(rows, b, others[b]);
    }
}
