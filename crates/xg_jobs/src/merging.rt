//! Leaves of a group that differ in nothing but their weights, as one entry.
ghost use Rattle.std.specs.Prelude.{◌+◌, ◌-◌, ◌^◌, ◌<◌, ◌≤◌, All, IfOk, OnOk, drop, length, map, unsigned_abs};
ghost use Rattle.xg_jobs.specs.Groups.{group_mass, groups_mass};
ghost use Rattle.xg_jobs.specs.Merging.{AreMerged, CanMerge, HasRoomUpTo, TakesGroup, TakesLeaf, TellPlaces};

use crate::entry::GroupEntry;
use std::alloc::{AllocError, Global};

/// Entries in groups: where each group begins, and behind them where the last one ends.
#[derive(Drop)]
pub(crate) struct Grouped<E> {
    pub(crate) starts: Vec<u32>,
    pub(crate) entries: Vec<E>,
}

/// Gives the leaves of a group that have the same sequence of the other player one entry, with their weights added up.
pub(crate) fn merged<E: GroupEntry>(
    alloc: Global,
    starts: &[u32],
    entries: &[E],
    others: u32,
) -> Result<Grouped<E>, AllocError>
    requires groups { CanMerge starts.now (map E.leaf entries.now) others }
    requires room { HasRoomUpTo E.has_room
        (groups_mass starts.now (map E.leaf entries.now) (length starts.now - 1)) }
    ensures { IfOk result (λ groups.
        AreMerged groups.starts.items (map E.leaf groups.entries.items) starts.now (map E.leaf entries.now)) }
{
    let mut places = vec![in alloc; 0; others as usize]?;
    let mut grouped = Grouped {
        starts: vec![in alloc; 0; starts.len()]?,
        entries: Vec::with_capacity(alloc, entries.len())?,
    };
    for s in 0..starts.len() - 1 {
        let group = &entries[starts[s] as usize..starts[s + 1] as usize];
        merge_group(group, &mut places, &mut grouped.entries)?;
        grouped.starts[s + 1] = grouped.entries.len() as u32;
    }
    Ok(grouped)
}

// Puts a group behind the entries. The places tell where the last entry of each sequence is, if they tell anything.
fn merge_group<E: GroupEntry>(
    group: &[E],
    places: &mut [usize],
    entries: &mut Vec<E>,
) -> Result<(), AllocError>
    requires within { All (λ e. e.other < length places.old) (map E.leaf group.now) }
    requires light { group_mass (map E.leaf group.now) < 2 ^ 63 }
    requires room { HasRoomUpTo E.has_room (group_mass (map E.leaf group.now)) }
    ensures { OnOk result (TakesGroup (map E.leaf group.now)
        (map E.leaf entries.old.items) (map E.leaf entries.new.items)) }
{
    let begin = entries.len();
    for e in group {
        merge_leaf(begin, *e, places, entries)?;
    }
    Ok(())
}

// Puts a leaf into the group from a place on.
fn merge_leaf<E: GroupEntry>(
    begin: usize,
    e: E,
    places: &mut [usize],
    entries: &mut Vec<E>,
) -> Result<(), AllocError>
    requires begin { begin ≤ length entries.old.items }
    requires told { TellPlaces begin places.old (map E.leaf entries.old.items) }
    requires within { (E.leaf e).other < length places.old }
    requires light { group_mass (drop begin (map E.leaf entries.old.items)) + unsigned_abs (E.leaf e).weight < 2 ^ 63 }
    requires room { HasRoomUpTo E.has_room
        (group_mass (drop begin (map E.leaf entries.old.items)) + unsigned_abs (E.leaf e).weight) }
    ensures takes { OnOk result (TakesLeaf begin (E.leaf e)
        (map E.leaf entries.old.items) (map E.leaf entries.new.items)) }
    ensures told { OnOk result (TellPlaces begin places.new (map E.leaf entries.new.items)) }
{
    let other = e.other();
    let place = places[other as usize];
    if begin <= place && place < entries.len() && entries[place].other() == other {
        entries[place] = E::new(other, entries[place].weight() + e.weight());
        return Ok(());
    }
    places[other as usize] = entries.len();
    entries.push(e)?;
    Ok(())
}
