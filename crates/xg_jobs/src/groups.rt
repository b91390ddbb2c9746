//! The groups of player one's sequences, with the smallest entries that have room.
ghost use Rattle.std.specs.Prelude.{◌≡◌, ◌*◌, ◌<◌, ◌≤◌, max, IfOk, length, map};
ghost use Rattle.std.specs.Thread.{IsSync};
ghost use Rattle.def_sums.specs.Limits.{most_mass};
ghost use Rattle.def_tree.specs.declared.Player.TheVariants.{One, Two};
ghost use Rattle.def_plan.specs.Form.{sequence_count};
ghost use Rattle.def_plan.specs.FormRows.{player_rows};
ghost use Rattle.def_plan.specs.Payoff.{mass_of};
ghost use Rattle.xg_jobs.specs.Entries.{AreGroupsOf};
ghost use Rattle.xg_jobs.specs.Grouping.{pair_weights};
ghost use Rattle.xg_jobs.specs.Groups.{greatest_of};
ghost use Rattle.xg_jobs.specs.Merging.{HasRoomUpTo};
ghost use Rattle.xg_jobs.specs.Rows.{AreNumbersOf};

use crate::entry::{GroupEntries, GroupEntry, SmallEntry, WideEntry};
use crate::grouping::{entries_of, starts_of};
use crate::input::RowInput;
use crate::merging::{Grouped, merged};
use crate::packing::MergedEntry;
use crate::row::Row;
use crate::sizes::total_mass;
use crate::writing::write_rows;
use def_tree::Player;
use std::alloc::{AllocError, Global};
use std::marker::{Model, Send, Sync};
use std::thread::Threads;
use xg_seq::SeqForm;

/// The leaves of each of player one's sequences.
#[derive(Drop)]
pub(crate) struct LeafGroups {
    // where each sequence's group begins, and behind them where the last one ends
    pub(crate) starts: Vec<u32>,
    pub(crate) entries: GroupEntries,
    // how many sequences player two has
    pub(crate) others: u32,
    // the sizes of the weights of all leaves together, which those of the entries are within
    pub(crate) mass: u64,
}

/// The leaves of each of player one's sequences, as they stand.
#[derive(Clone, Copy)]
pub struct PairGroups<'a> {
    /// Where each sequence's group begins, and behind them where the last one ends.
    pub starts: &'a [u32],
    pub entries: &'a GroupEntries,
    /// How many sequences player two has.
    pub others: u32,
}

impl Model for LeafGroups {
    ghost use Rattle.xg_jobs.specs.Entries.{AreMergedGroups, AreSmallest, KeepsGroups, leaves_of_group};
    ghost use Rattle.xg_jobs.specs.Grouping.{GroupedWeights, weights_in};

    ghost Value = { GroupedWeights };

    ghost view = { λ g. record {
      weights = weights_in g.starts.items (leaves_of_group g.entries) g.others;
      mass = g.mass;
    } };

    ghost invariant = { λ g. KeepsGroups g.starts.items (leaves_of_group g.entries) g.others g.mass
        × AreSmallest g.entries × AreMergedGroups g.starts.items (leaves_of_group g.entries) };
}

impl LeafGroups {
    /// The groups of the form's leaves.
    pub(crate) fn build(alloc: Global, form: &SeqForm) -> Result<LeafGroups, AllocError>
        ensures weights { IfOk result (λ groups. groups.weights ≡ pair_weights form.now One) }
        ensures mass { IfOk result (λ groups. groups.mass ≡ mass_of form.now.leaves) }
    {
        let mass = total_mass(form);
        // Small entries have room for the sum of any weights whose sizes together are within 31 bits.
        if mass <= i32::MAX as u64 {
            LeafGroups::of::<SmallEntry>(alloc, form, mass)
        } else {
            LeafGroups::of::<WideEntry>(alloc, form, mass)
        }
    }

    // Leaves with the same sequences become one in such entries, which are packed then.
    fn of<E: MergedEntry>(
        alloc: Global,
        form: &SeqForm,
        mass: u64,
    ) -> Result<LeafGroups, AllocError>
        requires mass { mass ≡ mass_of form.now.leaves }
        requires room { HasRoomUpTo E.has_room mass }
        ensures weights { IfOk result (λ groups. groups.weights ≡ pair_weights form.now One) }
        ensures mass { IfOk result (λ groups. groups.mass ≡ mass) }
    {
        let groups = grouped::<E>(alloc, form)?;
        Ok(LeafGroups {
            starts: groups.starts,
            entries: E::pack(alloc, groups.entries)?,
            others: form.sequence_count(Player::Two),
            mass,
        })
    }

    /// How many entries the groups have.
    pub(crate) fn entry_count(&self) -> u32 {
        self.starts[self.starts.len() - 1]
    }

    /// Writes for each sequence of each player the sum over its leaves against the other player's numbers, where each
    /// has room, by threads as `write_rows` does.
    pub(crate) fn write<Rt: Threads + Sync, R: Row + Send>(
        &self,
        rt: &Rt,
        input: &RowInput<'_>,
        own: &mut [R],
        other: &mut [R],
        spare: &mut [R],
    ) -> bool
        requires sync { IsSync Rt.row }
        requires groups { self.now.weights ≡ pair_weights input.now.form.now One }
        requires numbers { AreNumbersOf input.now.form.now input.now.one.now input.now.two.now }
        requires room { let most = max (greatest_of input.now.one.now) (greatest_of input.now.two.now) in
            self.now.mass ≤ most_mass → self.now.mass * most < R.limit }
        requires rows_one { length own.old ≡ sequence_count input.now.form.now.sets_one }
        requires rows_two { length other.old ≡ sequence_count input.now.form.now.sets_two }
        ensures own { map R.amount own.new ≡ player_rows input.now.form.now One input.now.two.now }
        ensures other { map R.amount other.new ≡ player_rows input.now.form.now Two input.now.one.now }
    {
        input.form.facts();
        let starts: &[u32] = &self.starts;
        match &self.entries {
            GroupEntries::Tiny(entries) => write_rows(
                rt, starts, entries, input, own, other, spare,
            ),
            GroupEntries::Small(entries) => write_rows(
                rt, starts, entries, input, own, other, spare,
            ),
            GroupEntries::Wide(entries) => write_rows(
                rt, starts, entries, input, own, other, spare,
            ),
        }
    }
}

// The leaves of each of player one's sequences, with one entry for those that have the same one of player two.
fn grouped<E: GroupEntry>(alloc: Global, form: &SeqForm) -> Result<Grouped<E>, AllocError>
    requires room { HasRoomUpTo E.has_room (mass_of form.now.leaves) }
    ensures { IfOk result (λ groups. AreGroupsOf form.now groups.starts.items (map E.leaf groups.entries.items)) }
{
    form.facts();
    let starts = starts_of(alloc, form)?;
    let entries = entries_of(alloc, form, &starts)?;
    merged(alloc, &starts, &entries, form.sequence_count(Player::Two))
}
