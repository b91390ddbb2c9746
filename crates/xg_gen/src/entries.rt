//! The entries of one-card poker, as a maker takes them.
ghost use Rattle.std.specs.Prelude.{◌≡◌, [], ◌∷◌, OnOk, Ok};
ghost use Rattle.xg_record.specs.Entry.{entry_seen};
ghost use Rattle.xg_gen.specs.Described.{AreNumbered, IsNumbered, record_of, records_of};
ghost use Rattle.xg_gen.specs.Taken.{GainsEntries, Takes};

use crate::mentions::{DescribedOutcome, NamedSet};
use std::alloc::AllocError;
use xg_game::{GameMaker, Refused};
use xg_lex::TextView;
use xg_record::{Actions, EntryActions, EntryKind, EntryView};

/// An entry, by what it mentions.
#[derive(Clone, Copy)]
pub(crate) enum Entry<'a> {
    /// Chance or a player moves, at a set with these actions.
    Move(EntryKind, u64, &'a NamedSet, &'a Actions),
    /// The play is over.
    End(&'a DescribedOutcome),
}

impl<'a> Entry<'a> {
    /// All that it says. Nodes have no names.
    fn view(self) -> EntryView<'a>
        ensures { entry_seen result ≡ record_of self.entry }
    {
        match self {
            Entry::Move(kind, player, set, actions) => EntryView {
                file: b"",
                kind,
                name: TextView::of(b""),
                player,
                set: set.number,
                set_name: Some(set.name.view()),
                actions: Some(EntryActions::Owned(actions)),
                outcome: 0,
                outcome_name: None,
                payoffs: None,
            },
            Entry::End(outcome) => EntryView {
                file: b"",
                kind: EntryKind::Leaf,
                name: TextView::of(b""),
                player: 0,
                set: 0,
                set_name: None,
                actions: None,
                outcome: outcome.number,
                outcome_name: Some(outcome.name.again()),
                payoffs: Some(&outcome.payoffs),
            },
        }
    }
}

/// Entries in their order.
pub(crate) fn put_all(maker: &mut GameMaker, entries: &[Entry<'_>]) -> Result<(), AllocError>
    requires numbered { AreNumbered entries.now }
    requires takes { Takes maker.old (records_of entries.now) }
    ensures { OnOk result (GainsEntries maker.old maker.new (records_of entries.now)) }
{
    'entries: for i in 0..entries.len() {
        put_entry(maker, entries[i])?;
    }
    Ok(())
}

/// One entry.
pub(crate) fn put_entry(maker: &mut GameMaker, entry: Entry<'_>) -> Result<(), AllocError>
    requires numbered { IsNumbered entry }
    requires takes { Takes maker.old (record_of entry ∷ []) }
    ensures { OnOk result (GainsEntries maker.old maker.new (record_of entry.entry ∷ [])) }
{
    match maker.push_entry(&entry.view()) {
        Ok(()) => Ok(()),
        Err(Refused::NoMemory) => Err(AllocError),
        Err(Refused::File(_)) => unreachable!(),
    }
}
