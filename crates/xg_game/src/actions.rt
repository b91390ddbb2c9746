//! The actions of sets, as a game keeps them.
ghost use Rattle.std.specs.Prelude.{◌≡◌, ◌↔◌, ◌<◌, ◌≤◌, [], ◌∷◌, ◌++◌, length, slice_get, slice_index_or, All, IfOk};
ghost use Rattle.std.specs.Prelude.{IsTrue, OnOk, Some};
ghost use Rattle.def_fraction.specs.Fraction.{zero_fraction};
ghost use Rattle.def_file.specs.Content.{action_with};
ghost use Rattle.def_file.specs.Game.{IsSmallFraction};
ghost use Rattle.xg_game.specs.Actions.{SpanIsWithin, action_kept, actions_in};
ghost use Rattle.xg_record.specs.Entry.{actions_seen};

use crate::outcomes::known;
use crate::texts::Texts;
use std::alloc::{AllocError, Global};
use std::cmp::Ordering;
use std::marker::Model;
use xg_frac::{Frac, compare, zero};
use xg_lex::TextView;
use xg_record::EntryActions;

/// The greatest number of actions of all sets of a kind: more count as more than there is memory for.
const MOST_KEPT: usize = 0xFFFF_FFFF;

/// An action of a set.
#[derive(Clone, Copy)]
pub(crate) struct KeptAction<'a> {
    pub(crate) name: &'a [u8],
    pub(crate) chance: Frac,
}

/// Where the actions of a set stand among those of all sets: from a place on, and before another one.
#[derive(Clone, Copy)]
pub(crate) struct Span {
    pub(crate) start: u32,
    pub(crate) end: u32,
}

/// The actions of many sets, one set's behind the other's, in little memory. Behind the last probability that is kept
/// all are 0.
#[derive(Drop)]
pub(crate) struct KeptActions {
    names: Texts,
    chances: Vec<Frac>,
}

impl Model for KeptActions {
    ghost use Rattle.std.specs.Prelude.{List};
    ghost use Rattle.def_file.specs.Content as content;
    ghost use Rattle.xg_game.specs.Actions.{KeepsChances, actions_of};

    ghost Value = { List content.Action };

    ghost view = { λ k. actions_of k.names k.chances.items };

    ghost invariant = { λ k. KeepsChances k.names k.chances.items };
}

impl KeptActions {
    /// No actions.
    pub(crate) fn new(alloc: Global) -> KeptActions
        ensures { result ≡ [] }
    {
        KeptActions {
            names: Texts::new(alloc),
            chances: Vec::new(alloc),
        }
    }

    /// How many actions there are.
    fn len(&self) -> usize
        ensures { result ≡ length self.now }
    {
        self.names.len()
    }

    /// The action at `i`, which counts from 0.
    fn get(&self, i: usize) -> KeptAction<'_>
        requires { i < length self.now }
        ensures { slice_get self.now i ≡ Some (action_kept result) }
    {
        KeptAction {
            name: self.names.get(i),
            chance: chance_at(&self.chances, i),
        }
    }

    /// The actions of a set.
    pub(crate) fn of(&self, span: Span) -> ActionList<'_>
        requires { SpanIsWithin (length self.now) span }
        ensures { result ≡ actions_in self.now span }
    {
        ActionList {
            all: self,
            start: span.start as usize,
            end: span.end as usize,
        }
    }

    /// Each probability is in lowest terms and within the limit: what the type keeps.
    pub(crate) fn chances_are_small(&self)
        ensures { All (λ action. IsSmallFraction action.chance) self.now }
    {
        let _count = self.chances.len();
    }

    /// Puts the actions of a set last. Where memory runs out, some of them may be there.
    pub(crate) fn add(
        &mut self,
        alloc: Global,
        actions: &EntryActions<'_>,
    ) -> Result<Span, AllocError>
        ensures ok { OnOk result (self.new ≡ self.old ++ actions_seen actions.now) }
        ensures span { IfOk result (λ span. (span.start ≡ length self.old) × (span.end ≡ length self.new)) }
        ensures kept { length self.old ≤ length self.new }
    {
        let start = self.len();
        for i in 0..actions.len() {
            let action = actions.get(i);
            self.push(alloc, &action.name, action.chance)?;
        }
        let end = self.len();
        if end > MOST_KEPT {
            return Err(AllocError);
        }
        Ok(Span {
            start: start as u32,
            end: end as u32,
        })
    }

    /// Puts an action last.
    fn push(&mut self, alloc: Global, name: &TextView<'_>, chance: Frac) -> Result<(), AllocError>
        ensures ok { OnOk result (self.new ≡ self.old ++ action_with name.now chance ∷ []) }
        ensures kept { length self.old ≤ length self.new }
    {
        let before = self.names.len();
        self.names.push_view(alloc, name)?;
        if let Ordering::Equal = compare(chance, zero()) {
            return Ok(());
        }
        self.chances.resize(before, zero())?;
        self.chances.push(known(chance))?;
        Ok(())
    }
}

/// The actions of a set.
#[derive(Drop)]
pub(crate) struct ActionList<'a> {
    all: &'a KeptActions,
    start: usize,
    end: usize,
}

impl<'a> Model for ActionList<'a> {
    ghost use Rattle.std.specs.Prelude.{◌<◌, ◌≤◌, ◌^◌, List, length, slice_range};
    ghost use Rattle.def_file.specs.Content as content;

    ghost Value = { List content.Action };

    ghost view = { λ l. slice_range l.all.now l.start l.end };

    ghost invariant = { λ l. (l.start ≤ l.end) × (l.end ≤ length l.all.now) × (l.end < 2 ^ 32) };
}

impl<'a> ActionList<'a> {
    /// How many actions there are.
    pub(crate) fn len(&self) -> usize
        ensures { result ≡ length self.now }
    {
        self.end - self.start
    }

    /// The action at `i`, which counts from 0.
    pub(crate) fn get(&self, i: usize) -> KeptAction<'a>
        requires { i < length self.now }
        ensures { slice_get self.now i ≡ Some (action_kept result) }
    {
        self.all.get(self.start + i)
    }
}

/// The probability at `i`, which is 0 behind the last one.
fn chance_at(chances: &[Frac], i: usize) -> Frac
    ensures { result ≡ slice_index_or chances.now i zero_fraction }
{
    if i < chances.len() {
        chances[i]
    } else {
        zero()
    }
}
