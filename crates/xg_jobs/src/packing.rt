//! Entries in fewer bytes.
ghost use Rattle.std.specs.Prelude.{◌≡◌, ◌↔◌, All, IfOk, IsTrue, map};
ghost use Rattle.xg_jobs.specs.Entries.{AreSmallest, leaves_of_group, small_leaf, wide_leaf};

use crate::entry::{GroupEntries, GroupEntry, SmallEntry, TinyEntry, WideEntry};
use std::alloc::{AllocError, Global};

/// An entry in which leaves with the same sequences are added up, before it is packed.
pub(crate) trait MergedEntry: GroupEntry {
    /// The same leaves in the smallest entries that have room for all of them.
    fn pack(alloc: Global, entries: Vec<Self>) -> Result<GroupEntries, AllocError>
        ensures leaves { IfOk result (λ packed. leaves_of_group packed ≡ map Self.leaf entries.items) }
        ensures smallest { IfOk result AreSmallest };
}

impl MergedEntry for SmallEntry {
    fn pack(alloc: Global, entries: Vec<SmallEntry>) -> Result<GroupEntries, AllocError>
        ensures leaves { IfOk result (λ packed. leaves_of_group packed ≡ map small_leaf entries.items) }
        ensures smallest { IfOk result AreSmallest }
    {
        if have_room::<_, TinyEntry>(&entries) {
            Ok(GroupEntries::Tiny(packed(alloc, &entries)?))
        } else {
            Ok(GroupEntries::Small(entries))
        }
    }
}

impl MergedEntry for WideEntry {
    fn pack(alloc: Global, entries: Vec<WideEntry>) -> Result<GroupEntries, AllocError>
        ensures leaves { IfOk result (λ packed. leaves_of_group packed ≡ map wide_leaf entries.items) }
        ensures smallest { IfOk result AreSmallest }
    {
        if have_room::<_, TinyEntry>(&entries) {
            Ok(GroupEntries::Tiny(packed(alloc, &entries)?))
        } else if have_room::<_, SmallEntry>(&entries) {
            Ok(GroupEntries::Small(packed(alloc, &entries)?))
        } else {
            Ok(GroupEntries::Wide(entries))
        }
    }
}

/// Whether each leaf has room in another entry.
fn have_room<E: GroupEntry, F: GroupEntry>(entries: &[E]) -> bool
    ensures { IsTrue result ↔ All (λ e. F.has_room (E.leaf e)) entries.now }
{
    for e in entries {
        if !F::fits(e.other(), e.weight()) {
            return false;
        }
    }
    true
}

/// The same leaves in other entries.
fn packed<E: GroupEntry, F: GroupEntry>(alloc: Global, entries: &[E]) -> Result<Vec<F>, AllocError>
    requires { All (λ e. F.has_room (E.leaf e)) entries.now }
    ensures { IfOk result (λ packed. map F.leaf packed.items ≡ map E.leaf entries.now) }
{
    let mut packed = Vec::with_capacity(alloc, entries.len())?;
    for e in entries {
        packed.push(F::new(e.other(), e.weight()))?;
    }
    Ok(packed)
}
