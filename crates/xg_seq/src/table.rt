//! A player's sets in a flat table.
ghost use Rattle.std.specs.Prelude.{◌≡◌, ◌+◌, ◌-◌, ◌<◌, ◌≤◌, length, map, Some, slice_get};
ghost use Rattle.def_plan.specs.Form.{AreInOrder, placed, sequence_count};
ghost use Rattle.xg_seq.specs.Table.{EndsAt, HaveFewActions, KeepsSets, most_sequences, placed_of_row, set_of_row};

use std::marker::Model;

/// A set in its place: the first sequence that ends at it, its player's sequence before it, and how many actions it
/// has.
#[derive(Clone, Copy)]
pub struct SetPlace {
    pub first: u32,
    pub before: u32,
    pub actions: u32,
}

/// A player's sets, and the set at which each of the player's sequences ends.
#[derive(Drop)]
pub(crate) struct SetPlaces {
    rows: Vec<SetPlace>,
    // those of the sequences from 1 on
    set_numbers: Vec<u32>,
}

impl Model for SetPlaces {
    ghost use Rattle.std.specs.Prelude.{List, map};
    ghost use Rattle.def_plan.specs.Form.{InformationSet};

    ghost Value = { List InformationSet };

    ghost use Rattle.xg_seq.specs.Table.{KeepsSets, set_of_row};

    ghost view = { λ t. map set_of_row t.rows.items };

    ghost invariant = { λ t. KeepsSets t.rows.items t.set_numbers.items };
}

impl SetPlaces {
    // The sets of these rows.
    pub(crate) fn of(rows: Vec<SetPlace>, set_numbers: Vec<u32>) -> SetPlaces
        requires { KeepsSets rows.items set_numbers.items }
        ensures { result ≡ map set_of_row rows.items }
    {
        SetPlaces { rows, set_numbers }
    }

    pub(crate) fn set_count(&self) -> u32
        ensures { result ≡ length self.now }
    {
        self.rows.len() as u32
    }

    pub(crate) fn sequence_count(&self) -> u32
        ensures count { result ≡ sequence_count self.now }

        // What is true of every table.
        ensures order { AreInOrder self.now }
        ensures limit { result ≤ most_sequences }
        ensures few_actions { HaveFewActions self.now }
    {
        self.set_numbers.len() as u32 + 1
    }

    pub(crate) fn row(&self, set: u32) -> SetPlace
        requires from_one { 1 ≤ set }
        requires there { set ≤ length self.now }
        ensures place { slice_get (placed self.now) (set - 1) ≡ Some (placed_of_row result) }
        ensures some { 1 ≤ result.actions }
        ensures earlier { result.before < result.first }
        ensures inside { result.first + result.actions ≤ sequence_count self.now }
    {
        self.rows[set as usize - 1]
    }

    pub(crate) fn places(&self) -> &[SetPlace]
        ensures { map placed_of_row result.now ≡ placed self.now }
    {
        &self.rows
    }

    pub(crate) fn set_of(&self, sequence: u32) -> u32
        requires some { 1 ≤ sequence }
        requires there { sequence < sequence_count self.now }
        ensures { EndsAt self.now sequence result }
    {
        self.set_numbers[sequence as usize - 1]
    }
}
