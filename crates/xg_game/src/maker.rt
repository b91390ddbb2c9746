//! The making of a game.
ghost use Rattle.std.specs.Prelude.{◌≡◌, ◌≢◌, ◌≤◌, ◌↔◌, true, false, Some, None, Err, length, IsTrue, OnOk};
ghost use Rattle.def_fraction.specs.Fraction.{most};
ghost use Rattle.def_file.specs.Adding.{with_record};
ghost use Rattle.def_file.specs.Content.{game_with, no_contents};
ghost use Rattle.def_file.specs.Faults.{has_set, record_fault};
ghost use Rattle.def_file.specs.declared.FileFault.{FileFault};
ghost use Rattle.def_tree.specs.Rules.{KeepRules, most_nodes};
ghost use Rattle.def_tree.specs.Tree.{Begins, wanted};
ghost use Rattle.xg_game.specs.Prologues.{prologue_with};
ghost use Rattle.xg_game.specs.Taken.{IsTaken};
ghost use Rattle.xg_record.specs.Entry.{entry_seen};
ghost use Rattle.xg_record.specs.Record.{record_of};

use crate::fault::Refused;
use crate::game::Game;
use crate::prologue::Prologue;
use crate::tables::ContentTables;
use std::alloc::Global;
use std::marker::Model;
use xg_lex::Text;
use xg_record::{EntryView, Record};

/// A game in the making: its prologue and its entries so far.
///
/// A maker for which memory ran out is spent. It takes no further entry.
#[derive(Drop)]
pub struct GameMaker {
    prologue: Prologue,
    tables: ContentTables,
    spent: bool,
}

impl Model for GameMaker {
    ghost use Rattle.std.specs.Prelude.{◌≡◌, false};
    ghost use Rattle.xg_game.specs.Made.{Made};

    ghost Value = { Made };

    ghost use Rattle.xg_game.specs.Prologues.{prologue_of};
    ghost use Rattle.def_file.specs.Game.{AreTogether};

    ghost view = { λ m. record { prologue = prologue_of m.prologue; contents = m.tables; spent = m.spent } };

    ghost invariant = { λ m. m.spent ≡ false → AreTogether m.tables };
}

impl GameMaker {
    /// A game with these texts and no entries yet.
    pub fn new(alloc: Global, title: Text, one: Text, two: Text, comment: Text) -> GameMaker
        ensures { let prologue = prologue_with title one two comment in
            result ≡ record { prologue = prologue; contents = no_contents; spent = false } }
    {
        GameMaker {
            prologue: Prologue {
                title,
                one,
                two,
                comment,
            },
            tables: ContentTables::new(alloc),
            spent: false,
        }
    }

    /// Whether the nodes of the entries are a whole tree.
    pub fn is_complete(&self) -> bool
        ensures complete { IsTrue result ↔ (wanted 1 self.now.contents.nodes ≡ 0) }

        // What is true of every maker.
        ensures begins { Begins 1 self.now.contents.nodes }
        ensures rules { KeepRules self.now.contents.nodes }
        ensures limit { length self.now.contents.nodes ≤ most_nodes }

        // And of one that isn't spent.
        ensures names { self.now.spent ≡ false →
            length self.now.contents.names ≡ length self.now.contents.nodes }
    {
        self.tables.nodes.is_complete()
    }

    /// Whether memory ran out.
    pub fn is_spent(&self) -> bool
        ensures { result ≡ self.now.spent }
    {
        self.spent
    }

    /// Takes the next entry, in prefix order. After a fault the maker is as it was, and it is spent where memory ran
    /// out.
    pub fn push(&mut self, entry: Record) -> Result<(), Refused>
        requires incomplete { wanted 1 self.old.contents.nodes ≢ 0 }
        requires unspent { self.old.spent ≡ false }
        requires outcome { entry.outcome ≤ most }
        requires set { IsTrue (has_set entry.kind) → (1 ≤ entry.set) × (entry.set ≤ most) }
        ensures ok { let contents = with_record self.old.contents (record_of entry) in
            OnOk result (self.new ≡ record self.old { contents = contents }) }
        ensures accepted { OnOk result (record_fault self.old.contents (record_of entry) ≡ None) }

        // A fault is the first of the entry, and is always found.
        ensures refused { (fault : FileFault) → result ≡ Err (Refused.File fault) →
            (record_fault self.old.contents (record_of entry) ≡ Some fault) × (self.new ≡ self.old) }
        ensures faults { (fault : FileFault) →
            record_fault self.old.contents (record_of entry) ≡ Some fault →
            result ≡ Err (Refused.File fault) }

        ensures spent { (result ≡ Err Refused.NoMemory) ↔ (self.new.spent ≡ true) }
        ensures prologue { self.new.prologue ≡ self.old.prologue }
    {
        self.push_entry(&entry.view())
    }

    /// Takes the next entry, as `push`, by views of what it says.
    #[inline(always)]
    pub fn push_entry(&mut self, entry: &EntryView<'_>) -> Result<(), Refused>
        requires incomplete { wanted 1 self.old.contents.nodes ≢ 0 }
        requires unspent { self.old.spent ≡ false }
        requires outcome { entry.now.outcome ≤ most }
        requires set { IsTrue (has_set entry.now.kind) → (1 ≤ entry.now.set) × (entry.now.set ≤ most) }
        ensures ok { let contents = with_record self.old.contents (entry_seen entry.now) in
            OnOk result (self.new ≡ record self.old { contents = contents }) }
        ensures accepted { OnOk result (record_fault self.old.contents (entry_seen entry.now) ≡ None) }

        // A fault is the first of the entry, and is always found.
        ensures refused { (fault : FileFault) → result ≡ Err (Refused.File fault) →
            (record_fault self.old.contents (entry_seen entry.now) ≡ Some fault) × (self.new ≡ self.old) }
        ensures faults { (fault : FileFault) →
            record_fault self.old.contents (entry_seen entry.now) ≡ Some fault →
            result ≡ Err (Refused.File fault) }

        ensures spent { (result ≡ Err Refused.NoMemory) ↔ (self.new.spent ≡ true) }
        ensures prologue { self.new.prologue ≡ self.old.prologue }
    {
        // It says more of its set or its outcome than the number.
        if entry.set_name.is_some()
            || entry.actions.is_some()
            || entry.outcome_name.is_some()
            || entry.payoffs.is_some()
        {
            return self.push_described(&entry.again());
        }
        self.push_placed(entry)
    }

    /// Takes an entry that says more of its set or its outcome than the number. It stands apart, since no other entry,
    /// and most are such, then needs a place in memory.
    #[inline(never)]
    fn push_described(&mut self, entry: &EntryView<'_>) -> Result<(), Refused>
        requires incomplete { wanted 1 self.old.contents.nodes ≢ 0 }
        requires unspent { self.old.spent ≡ false }
        requires outcome { entry.now.outcome ≤ most }
        requires set { IsTrue (has_set entry.now.kind) → (1 ≤ entry.now.set) × (entry.now.set ≤ most) }
        ensures { IsTaken self.old (entry_seen entry.now) result self.new }
    {
        self.push_placed(entry)
    }

    /// Takes the next entry, by the places of its set and its outcome.
    #[inline(always)]
    fn push_placed(&mut self, entry: &EntryView<'_>) -> Result<(), Refused>
        requires incomplete { wanted 1 self.old.contents.nodes ≢ 0 }
        requires unspent { self.old.spent ≡ false }
        requires outcome { entry.now.outcome ≤ most }
        requires set { IsTrue (has_set entry.now.kind) → (1 ≤ entry.now.set) × (entry.now.set ≤ most) }
        ensures { IsTaken self.old (entry_seen entry.now) result self.new }
    {
        let places = self.tables.places(entry);
        if let Some(fault) = self.tables.fault(entry, places) {
            return Err(Refused::File(fault));
        }
        if self.tables.keep(entry, places).is_err() {
            self.spent = true;
            return Err(Refused::NoMemory);
        }
        Ok(())
    }

    /// The game of the prologue and the entries.
    pub fn finish(self) -> Game
        requires complete { wanted 1 self.contents.nodes ≡ 0 }
        requires unspent { self.spent ≡ false }
        ensures { result ≡ game_with self.prologue self.contents }
    {
        Game::of(self.prologue, self.tables)
    }

    /// Lets go of what was taken, as `drop` does. A caller that drops a maker itself has code of its own for each
    /// table.
    pub fn discard(self) {
        drop(self);
    }
}
