//! The entries of a file.
ghost use Rattle.def_fraction.specs.Fraction.{most};
ghost use Rattle.std.specs.Prelude.{◌≡◌, ◌≤◌, [], IfOk, true};
ghost use Rattle.def_file.specs.Faults.{has_set};
ghost use Rattle.def_file.specs.Reading.{entry_at, outcome_mention_at, set_mention_at};
ghost use Rattle.xg_record.specs.Entry.{entry_seen};
ghost use Rattle.xg_read.specs.Entries.{kind_at, mover_at, parts_at, set_part_at};
ghost use Rattle.xg_read.specs.Gives.{Gives, GivesFor};
ghost use Rattle.xg_read.specs.Mentions.{HasNumbers, outcome_mention_of, set_mention_of};

use crate::reader::Reader;
use crate::wanted::{Wanted, is_exact};
use def_file::{EntryKind, FileFault};
use std::alloc::Global;
use xg_game::Refused;
use xg_lex::{TextView, Token};
use xg_record::{ActionViews, EntryActions, EntryView, Payoffs};

/// What an entry says of its set.
#[derive(Drop)]
pub struct SetMention<'a> {
    pub number: u64,
    pub name: Option<TextView<'a>>,
    pub actions: Option<EntryActions<'a>>,
}

/// What an entry says of its outcome.
#[derive(Drop)]
pub struct OutcomeMention<'a> {
    pub number: u64,
    pub name: Option<TextView<'a>>,
    pub payoffs: Option<&'a Payoffs>,
}

/// The lists of an entry, in memory that serves one entry after another.
#[derive(Drop)]
pub struct Lists<'a> {
    pub actions: ActionViews<'a>,
    pub payoffs: Payoffs,
}

impl<'a> Lists<'a> {
    /// Empty lists.
    pub fn new(alloc: Global) -> Lists<'a>
        ensures actions { result.actions ≡ [] }
        ensures payoffs { result.payoffs ≡ [] }
    {
        Lists {
            actions: ActionViews::new(alloc),
            payoffs: Payoffs::new(alloc),
        }
    }
}

impl<'a> Reader<'a> {
    /// A set's number, and its name and actions where they come.
    #[tactic(auto, unfolding(def_file::specs::Reading::set_mention_at))]
    #[inline(always)]
    fn set_mention<'l>(
        &mut self,
        kind: EntryKind,
        actions: &'l mut ActionViews<'a>,
    ) -> Result<SetMention<'l>, Refused>
    where
        'a: 'l,
        ensures exact { GivesFor set_mention_of result self.new.at (set_mention_at kind self.old.whole self.old.at) }
        ensures whole { self.new.whole ≡ self.old.whole }
        ensures from_one { IfOk result (λ set. 1 ≤ set.number) }
        ensures limit { IfOk result (λ set. set.number ≤ most) }
    {
        let number = self.set_number()?;
        let name = self.name_view()?;
        let actions = self.actions(kind, actions)?;
        Ok(SetMention {
            number,
            name,
            actions,
        })
    }

    /// An outcome's number, and its name and payoffs where they come.
    #[tactic(auto, unfolding(def_file::specs::Reading::outcome_mention_at))]
    #[inline(always)]
    fn outcome_mention<'l>(
        &mut self,
        payoffs: &'l mut Payoffs,
    ) -> Result<OutcomeMention<'l>, Refused>
    where
        'a: 'l,
        ensures exact { GivesFor outcome_mention_of result self.new.at (outcome_mention_at self.old.whole self.old.at) }
        ensures whole { self.new.whole ≡ self.old.whole }
        ensures limit { IfOk result (λ outcome. outcome.number ≤ most) }
    {
        let number = self.whole_number()?;
        let name = self.name_view()?;
        let payoffs = self.payoffs(payoffs)?;
        Ok(OutcomeMention {
            number,
            name,
            payoffs,
        })
    }

    /// The kind of an entry, by its word.
    #[tactic(auto, unfolding(crate::specs::Entries::kind_at))]
    #[inline(always)]
    fn kind(&mut self) -> Result<EntryKind, FileFault>
        ensures exact { Gives result self.new.at (kind_at self.old.whole self.old.at) }
        ensures whole { self.new.whole ≡ self.old.whole }
    {
        let head = self.token(Wanted::Head)?;
        if is_exact(Token::Word, b"c", self.bytes(), head) {
            return Ok(EntryKind::Chance);
        }
        if is_exact(Token::Word, b"p", self.bytes(), head) {
            return Ok(EntryKind::Personal);
        }
        Ok(EntryKind::Leaf)
    }

    /// The player, where one moves, and else 0.
    #[inline(always)]
    fn mover(&mut self, kind: EntryKind) -> Result<u64, FileFault>
        ensures exact { Gives result self.new.at (mover_at kind self.old.whole self.old.at) }
        ensures whole { self.new.whole ≡ self.old.whole }
    {
        match kind {
            EntryKind::Personal => self.whole_number(),
            EntryKind::Chance | EntryKind::Leaf => Ok(0),
        }
    }

    /// What is said of the set, where there is one.
    #[inline(always)]
    fn set<'l>(
        &mut self,
        kind: EntryKind,
        actions: &'l mut ActionViews<'a>,
    ) -> Result<SetMention<'l>, Refused>
    where
        'a: 'l,
        ensures exact { GivesFor set_mention_of result self.new.at (set_part_at kind self.old.whole self.old.at) }
        ensures whole { self.new.whole ≡ self.old.whole }
        ensures numbers { IfOk result (λ set. has_set kind ≡ true → (1 ≤ set.number) × (set.number ≤ most)) }
    {
        match kind {
            EntryKind::Leaf => Ok(SetMention {
                number: 0,
                name: None,
                actions: None,
            }),
            EntryKind::Chance | EntryKind::Personal => self.set_mention(kind, actions),
        }
    }

    /// The next entry, part by part.
    #[tactic(auto, unfolding(crate::specs::Entries::parts_at))]
    #[inline(always)]
    fn entry_parts<'l>(&mut self, lists: &'l mut Lists<'a>) -> Result<EntryView<'l>, Refused>
    where
        'a: 'l,
        ensures exact { GivesFor entry_seen result self.new.at (parts_at self.old.whole self.old.at) }
        ensures whole { self.new.whole ≡ self.old.whole }
        ensures numbers { IfOk result HasNumbers }
    {
        let kind = self.kind()?;
        let name = self.next_view()?;
        let player = self.mover(kind)?;
        let set = self.set(kind, &mut lists.actions)?;
        let outcome = self.outcome_mention(&mut lists.payoffs)?;
        Ok(EntryView {
            file: self.bytes(),
            kind,
            name,
            player,
            set: set.number,
            set_name: set.name,
            actions: set.actions,
            outcome: outcome.number,
            outcome_name: outcome.name,
            payoffs: outcome.payoffs,
        })
    }

    /// The next entry. Its lists are read into `lists`.
    #[inline(always)]
    pub fn entry<'l>(&mut self, lists: &'l mut Lists<'a>) -> Result<EntryView<'l>, Refused>
    where
        'a: 'l,
        ensures exact { GivesFor entry_seen result self.new.at (entry_at self.old.whole self.old.at) }
        ensures whole { self.new.whole ≡ self.old.whole }
        ensures numbers { IfOk result HasNumbers }
    {
        self.entry_parts(lists)
    }
}
