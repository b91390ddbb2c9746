//! The nodes of entries, with their names, sets and outcomes.
ghost use Rattle.std.specs.Prelude.{◌≡◌, ◌≢◌, None, OnOk, ◌&&◌};
ghost use Rattle.def_file.specs.Adding.{node_with, with_record};
ghost use Rattle.def_file.specs.Content.{no_contents, sets_of_kind};
ghost use Rattle.def_file.specs.Faults as faults;
ghost use Rattle.def_tree.specs.Tree.{wanted};
ghost use Rattle.def_file.specs.Game.{AreTogether};
ghost use Rattle.xg_game.specs.Places.{ArePlacesOf, place_of_set};
ghost use Rattle.xg_record.specs.Entry.{entry_seen};

use crate::outcomes::OutcomeTable;
use crate::sets::SetTables;
use crate::texts::Texts;
use def_file::{EntryKind, FileFault};
use def_tree::Node;
use std::alloc::{AllocError, Global};
use std::marker::Model;
use xg_record::EntryView;
use xg_tree::{Builder, Kind, MOST_ACTIONS, MOST_NODES};

/// Where the set and the outcome of an entry are in the tables, if they are there.
#[derive(Clone, Copy)]
pub(crate) struct Places {
    pub(crate) set: Option<usize>,
    pub(crate) outcome: Option<usize>,
}

/// What the entries so far say.
#[derive(Drop)]
pub(crate) struct ContentTables {
    pub(crate) nodes: Builder,
    pub(crate) names: Texts,
    pub(crate) sets: SetTables,
    pub(crate) outcomes: OutcomeTable,
    // For names that are kept.
    alloc: Global,
}

impl Model for ContentTables {
    ghost use Rattle.def_file.specs.Content.{Contents};

    ghost Value = { Contents };

    ghost view = { λ t. record {
      nodes = t.nodes;
      names = t.names;
      sets = t.sets;
      outcomes = t.outcomes;
    } };
}

impl ContentTables {
    /// No entries.
    pub(crate) fn new(alloc: Global) -> ContentTables
        ensures { result ≡ no_contents }
    {
        ContentTables {
            nodes: Builder::new(alloc),
            names: Texts::new(alloc),
            sets: SetTables::new(alloc),
            outcomes: OutcomeTable::new(alloc),
            alloc,
        }
    }

    /// Where the set and the outcome of an entry are in the tables.
    #[inline(always)]
    pub(crate) fn places(&self, entry: &EntryView<'_>) -> Places
        ensures { ArePlacesOf (entry_seen entry.now) self.now result }
    {
        let kind = mover(entry.kind, entry.player);
        let set = self.sets.find(kind, entry.set);
        let outcome = match entry.outcome {
            0 => None,
            number => self.outcomes.find(number),
        };
        Places { set, outcome }
    }

    /// The first fault of an entry after those so far.
    #[inline(always)]
    pub(crate) fn fault(&self, entry: &EntryView<'_>, places: Places) -> Option<FileFault>
        requires consistent { AreTogether self.now }
        requires places { ArePlacesOf (entry_seen entry.now) self.now places }
        ensures { result ≡ faults.record_fault self.now (entry_seen entry.now) }
    {
        let node = self.names.len() as u32 + 1;
        let kind = mover(entry.kind, entry.player);
        if is_no_player(entry.kind, entry.player) {
            return Some(FileFault::PlayerNumber { node });
        }
        if has_set(entry.kind) && places.set.is_none() && entry.actions.is_none() {
            return Some(FileFault::SetUndefined { node });
        }
        if has_set(entry.kind) && self.sets.of(kind).differs(kind, entry, places.set) {
            return Some(FileFault::SetMismatch { node });
        }
        if entry.outcome != 0 && places.outcome.is_none() && entry.payoffs.is_none() {
            return Some(FileFault::OutcomeUndefined { node });
        }
        if self.outcomes.differs(entry, places.outcome) {
            return Some(FileFault::OutcomeMismatch { node });
        }
        if self.outcomes.is_miscounted(entry, places.outcome) {
            return Some(FileFault::PayoffCount { node });
        }
        if self.names.len() == MOST_NODES {
            return Some(FileFault::TooManyNodes);
        }
        if self.is_set_miscounted(entry, places.set) {
            return Some(FileFault::ActionCount { node });
        }
        None
    }

    #[inline(always)]
    fn is_set_miscounted(&self, entry: &EntryView<'_>, place: Option<usize>) -> bool
        requires { place ≡ place_of_set (entry_seen entry.now) self.now.sets }
        ensures { let r = entry_seen entry.now in
            let table = sets_of_kind (faults.mover r) self.now.sets in
            result ≡ faults.has_set r.kind && faults.is_set_miscounted table r.set }
    {
        has_set(entry.kind)
            && place.is_none()
            && match &entry.actions {
                Some(actions) => actions.len() == 0 || actions.len() > MOST_ACTIONS as usize,
                None => false,
            }
    }

    /// Takes an entry that has no fault. Where memory runs out, part of it may be in the tables.
    #[inline(always)]
    pub(crate) fn keep(&mut self, entry: &EntryView<'_>, places: Places) -> Result<(), AllocError>
        requires places { ArePlacesOf (entry_seen entry.now) self.old places }
        requires consistent { AreTogether self.old }
        requires incomplete { wanted 1 self.old.nodes ≢ 0 }
        requires faultless { faults.record_fault self.old (entry_seen entry.now) ≡ None }
        ensures { OnOk result (self.new ≡ with_record self.old (entry_seen entry.now)) }
    {
        let node = self.node_with(entry, places);
        self.sets.note(
            self.alloc,
            entry.file,
            node.kind,
            places.set,
            entry.set,
            &entry.set_name,
            &entry.actions,
        )?;
        self.outcomes.note(
            self.alloc,
            entry.file,
            places.outcome,
            entry.outcome,
            &entry.outcome_name,
            entry.payoffs,
        )?;
        self.names.push_view(self.alloc, &entry.name)?;
        if self.nodes.push(node).is_err() {
            return Err(AllocError);
        }
        Ok(())
    }

    /// The node of an entry that has no fault.
    #[inline(always)]
    fn node_with(&self, entry: &EntryView<'_>, places: Places) -> Node
        requires places { ArePlacesOf (entry_seen entry.now) self.now places }
        requires consistent { AreTogether self.now }
        requires faultless { faults.record_fault self.now (entry_seen entry.now) ≡ None }
        ensures { result ≡ node_with self.now (entry_seen entry.now) }
    {
        let kind = mover(entry.kind, entry.player);
        let outcome = self.outcomes.number_with(entry, places.outcome);
        if !has_set(entry.kind) {
            return Node {
                kind,
                set: 0,
                outcome,
                children: 0,
            };
        }
        let table = self.sets.of(kind);
        Node {
            kind,
            set: table.number_with(entry, places.set),
            outcome,
            children: table.action_count_with(entry, places.set),
        }
    }
}

/// Who moves at an entry of this kind and player.
#[inline(always)]
fn mover(kind: EntryKind, player: u64) -> Kind
    ensures { result ≡ faults.mover_as kind player }
{
    match kind {
        EntryKind::Chance => Kind::Chance,
        EntryKind::Personal => { if player == 1 { Kind::One } else { Kind::Two } }
        EntryKind::Leaf => Kind::Leaf,
    }
}

#[inline(always)]
fn has_set(kind: EntryKind) -> bool
    ensures { result ≡ faults.has_set kind }
{
    match kind {
        EntryKind::Chance | EntryKind::Personal => true,
        EntryKind::Leaf => false,
    }
}

/// Whether an entry of a player has a number that is no player's.
#[inline(always)]
fn is_no_player(kind: EntryKind, player: u64) -> bool
    ensures { result ≡ faults.is_no_player kind player }
{
    match kind {
        EntryKind::Personal => player != 1 && player != 2,
        EntryKind::Chance | EntryKind::Leaf => false,
    }
}
