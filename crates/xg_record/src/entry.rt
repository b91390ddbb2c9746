//! An entry of a game file, by views of its texts and its lists.
ghost use Rattle.std.specs.Prelude.{◌≡◌, ◌<◌, Some, length, slice_get};
ghost use Rattle.xg_record.specs.Entry.{actions_seen, entry_seen};
ghost use Rattle.xg_record.specs.Record.{record_of};
ghost use Rattle.xg_record.specs.Seen.{action_seen};

use crate::action::Actions;
use crate::payoffs::Payoffs;
use crate::record::Record;
use crate::views::{ActionView, ActionViews, view_again};
use def_file::EntryKind;
use xg_lex::{Text, TextView};

/// The actions that an entry gives, in their order.
#[derive(Drop)]
pub enum EntryActions<'a> {
    /// Actions with names of their own, as a `Record` has them.
    Owned(&'a Actions),
    /// Actions by views of their names.
    Viewed(&'a ActionViews<'a>),
}

impl<'a> EntryActions<'a> {
    /// The same actions.
    #[inline(always)]
    pub fn again(&self) -> EntryActions<'a>
        ensures { result ≡ self.now }
    {
        match self {
            EntryActions::Owned(actions) => EntryActions::Owned(actions),
            EntryActions::Viewed(actions) => EntryActions::Viewed(actions),
        }
    }

    /// How many actions there are.
    pub fn len(&self) -> usize
        ensures { result ≡ length (actions_seen self.now) }
    {
        match self {
            EntryActions::Owned(actions) => actions.len(),
            EntryActions::Viewed(actions) => actions.len(),
        }
    }

    /// The action at `i`, which counts from 0.
    pub fn get(&self, i: usize) -> ActionView<'a>
        requires { i < length (actions_seen self.now) }
        ensures { slice_get (actions_seen self.now) i ≡ Some (action_seen result) }
    {
        match self {
            EntryActions::Owned(actions) => actions.get(i).view(),
            EntryActions::Viewed(actions) => actions.get(i),
        }
    }
}

/// What an entry of a game file says, as `Record` has it, by views of its texts and its lists.
#[derive(Drop)]
pub struct EntryView<'a> {
    /// The bytes of the file that the entry stands in, and none where it stands in no file.
    pub file: &'a [u8],
    pub kind: EntryKind,
    pub name: TextView<'a>,
    pub player: u64,
    pub set: u64,
    pub set_name: Option<TextView<'a>>,
    pub actions: Option<EntryActions<'a>>,
    pub outcome: u64,
    pub outcome_name: Option<TextView<'a>>,
    pub payoffs: Option<&'a Payoffs>,
}

impl<'a> EntryView<'a> {
    /// The same entry.
    #[inline(always)]
    pub fn again(&self) -> EntryView<'a>
        ensures { result ≡ self.now }
    {
        EntryView {
            file: self.file,
            kind: self.kind,
            name: self.name.again(),
            player: self.player,
            set: self.set,
            set_name: view_again(&self.set_name),
            actions: match &self.actions {
                Some(actions) => Some(actions.again()),
                None => None,
            },
            outcome: self.outcome,
            outcome_name: view_again(&self.outcome_name),
            payoffs: self.payoffs,
        }
    }
}

impl Record {
    /// The entry, by views of what this record has.
    pub fn view(&self) -> EntryView<'_>
        ensures { entry_seen result ≡ record_of self.now }
    {
        EntryView {
            file: b"",
            kind: self.kind,
            name: self.name.view(),
            player: self.player,
            set: self.set,
            set_name: self.set_name.as_ref().map(Text::view),
            actions: self.actions.as_ref().map(EntryActions::Owned),
            outcome: self.outcome,
            outcome_name: self.outcome_name.as_ref().map(Text::view),
            payoffs: self.payoffs.as_ref(),
        }
    }
}
