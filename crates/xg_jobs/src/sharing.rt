//! A range of groups, added up by as many threads as there are rows of player two for.
ghost use Rattle.std.specs.Prelude.{◌≡◌, ◌<◌, ◌≤◌, pos, length, map, replicate};
ghost use Rattle.std.specs.Thread.{IsSend, IsSync};
ghost use Rattle.xg_jobs.specs.Adding.{AddsGroups, CanAddGroups};

use crate::adding::{add_groups, add_rows};
use crate::entry::GroupEntry;
use crate::input::Groups;
use crate::roll::Roll;
use crate::row::Row;
use std::marker::{Send, Sync};
use std::thread::{Threads, join_mut};

/// As `add_groups`, by a thread more for each of player two's rows that the spare room has: the last part of the entries
/// is one thread's, and the others share the rest. Each thread signs the roll. Whether it is full then is looked for as
/// often as is said.
///
/// The caller starts all of the threads, since one that has to run before it starts another comes late.
#[cycle(sharing)]
pub(crate) fn add_by_threads<Rt: Threads + Sync, E: GroupEntry + Sync, R: Row + Send>(
    rt: &Rt,
    groups: &Groups<'_, E>,
    roll: &Roll,
    looks: usize,
    own: &mut [R],
    other: &mut [R],
    spare: &mut [R],
) -> bool
    requires sync { IsSync Rt.row }
    requires can { CanAddGroups R.limit groups.now.starts.now (map E.leaf groups.now.entries.now) groups.now.one.now
        groups.now.two.now (length own.old) (replicate (length other.old) (pos 0)) }
    ensures { AddsGroups groups.now.starts.now (map E.leaf groups.now.entries.now) groups.now.one.now groups.now.two.now
        (map R.amount own.new) (replicate (length other.old) (pos 0)) (map R.amount other.new) }
{
    let room = other.len();
    if room == 0 || spare.len() < room {
        add_groups(groups, own, other);
        roll.sign();
        return roll.is_full_within(looks);
    }
    let cut = begin_of_last(groups.starts, own.len(), spare.len() / room);
    let (first_one, later_one) = groups.one.split_at(cut);
    let (first_starts, _) = groups.starts.split_at(cut + 1);
    let (_, later_starts) = groups.starts.split_at(cut);
    let first = Groups {
        starts: first_starts,
        one: first_one,
        ..*groups
    };
    let later = Groups {
        starts: later_starts,
        one: later_one,
        ..*groups
    };
    let (first_own, later_own) = own.split_at_mut(cut);
    let (later_other, first_spare) = spare.split_at_mut(room);
    let full = add_side_by_side(
        rt,
        roll,
        looks,
        &first,
        first_own,
        other,
        first_spare,
        &later,
        later_own,
        later_other,
    );
    add_rows(other, later_other);
    full
}

// The last part by a thread of its own, and the rest as before, so that what the closures require is what this function
// is given.
#[cycle(sharing)]
fn add_side_by_side<Rt: Threads + Sync, E: GroupEntry + Sync, R: Row + Send>(
    rt: &Rt,
    roll: &Roll,
    looks: usize,
    first: &Groups<'_, E>,
    own: &mut [R],
    other: &mut [R],
    spare: &mut [R],
    later: &Groups<'_, E>,
    later_own: &mut [R],
    later_other: &mut [R],
) -> bool
    requires sync { IsSync Rt.row }
    requires first { CanAddGroups R.limit first.now.starts.now (map E.leaf first.now.entries.now) first.now.one.now
        first.now.two.now (length own.old) (replicate (length other.old) (pos 0)) }
    requires later { CanAddGroups R.limit later.now.starts.now (map E.leaf later.now.entries.now) later.now.one.now
        later.now.two.now (length later_own.old) (replicate (length later_other.old) (pos 0)) }
    ensures first { AddsGroups first.now.starts.now (map E.leaf first.now.entries.now) first.now.one.now
        first.now.two.now (map R.amount own.new) (replicate (length other.old) (pos 0)) (map R.amount other.new) }
    ensures later { AddsGroups later.now.starts.now (map E.leaf later.now.entries.now) later.now.one.now
        later.now.two.now (map R.amount later_own.new) (replicate (length later_other.old) (pos 0))
        (map R.amount later_other.new) }
{
    let mut one = || -> bool
        requires { IsSync Rt.row × IsSync E.row × IsSend R.row
            × CanAddGroups R.limit first.now.starts.now (map E.leaf first.now.entries.now) first.now.one.now
            first.now.two.now (length own.now) (replicate (length other.now) (pos 0)) }
        ensures { AddsGroups first.entry.now.starts.now (map E.leaf first.entry.now.entries.now)
            first.entry.now.one.now first.entry.now.two.now (map R.amount own.exit.now)
            (replicate (length other.entry.now) (pos 0)) (map R.amount other.exit.now) }
    { add_by_threads(rt, first, roll, looks, own, other, spare) };
    let mut two = ||
        requires { IsSync E.row × IsSend R.row
            × CanAddGroups R.limit later.now.starts.now (map E.leaf later.now.entries.now) later.now.one.now
            later.now.two.now (length later_own.now) (replicate (length later_other.now) (pos 0)) }
        ensures { AddsGroups later.entry.now.starts.now (map E.leaf later.entry.now.entries.now)
            later.entry.now.one.now later.entry.now.two.now (map R.amount later_own.exit.now)
            (replicate (length later_other.entry.now) (pos 0)) (map R.amount later_other.exit.now) }
    {
        add_groups(later, later_own, later_other);
        roll.sign();
    };
    let (_, full) = join_mut(rt, &mut two, &mut one);
    full
}

// How many of so many groups begin before the last of some equal parts of their entries, if groups begin in order; never
// more than there are. The caller's part is one more than the threads'.
fn begin_of_last(starts: &[u32], groups: usize, threads: usize) -> usize
    requires { groups < length starts.now }
    ensures { result ≤ groups }
{
    let end = starts[groups] as usize;
    let entries = end.saturating_sub(starts[0] as usize);
    let entry = end.saturating_sub(entries / threads.saturating_add(1));
    let mut low = 0;
    let mut high = groups;
    for _step in 0..64 {
        if low >= high {
            break;
        }
        let middle = low + (high - low) / 2;
        if (starts[middle] as usize) < entry {
            low = middle + 1;
        } else {
            high = middle;
        }
    }
    low
}
