//! The actions of a set, by views of their names.
ghost use Rattle.std.specs.Prelude.{◌≡◌, ◌<◌, [], ◌∷◌, ◌++◌, Some, length, slice_get, OnOk, OnErr};
ghost use Rattle.xg_record.specs.Action.{action_of};
ghost use Rattle.xg_record.specs.Seen.{action_seen};

use crate::action::Action;
use std::alloc::{AllocError, Global};
use std::marker::Model;
use xg_frac::Frac;
use xg_lex::TextView;

/// An action of a set, as `Action` has it, by a view of its name.
#[derive(Drop)]
pub struct ActionView<'a> {
    pub name: TextView<'a>,
    pub chance: Frac,
}

impl Action {
    /// The action, by a view of its name.
    pub fn view(&self) -> ActionView<'_>
        ensures { action_seen result ≡ action_of self.now }
    {
        ActionView {
            name: self.name.view(),
            chance: self.chance,
        }
    }
}

/// Actions by views of their names, in memory that serves one list after another.
#[derive(Drop)]
pub struct ActionViews<'a> {
    actions: Vec<ActionView<'a>>,
}

impl<'a> Model for ActionViews<'a> {
    ghost use Rattle.std.specs.Prelude.{List, map};
    ghost use Rattle.def_file.specs.Content as content;

    ghost Value = { List content.Action };

    ghost use Rattle.xg_record.specs.Seen.{action_seen};

    ghost view = { λ a. map action_seen a.actions.items };
}

impl<'a> ActionViews<'a> {
    /// No actions.
    pub fn new(alloc: Global) -> ActionViews<'a>
        ensures { result ≡ [] }
    {
        ActionViews {
            actions: Vec::new(alloc),
        }
    }

    /// Takes all actions out. Their memory stays, for those that come next.
    pub fn clear(&mut self)
        ensures { self.new ≡ [] }
    {
        self.actions.clear();
    }

    /// Puts an action last.
    pub fn push(&mut self, action: ActionView<'a>) -> Result<(), AllocError>
        ensures ok { OnOk result (self.new ≡ self.old ++ action_seen action.entry ∷ []) }
        ensures err { OnErr result (self.new ≡ self.old) }
    {
        self.actions.push(action)?;
        Ok(())
    }

    /// How many actions there are.
    pub fn len(&self) -> usize
        ensures { result ≡ length self.now }
    {
        self.actions.len()
    }

    /// The action at `i`, which counts from 0.
    #[tactic(auto, using(crate::proofs::Seen::seen_length, crate::proofs::Seen::seen_at))]
    pub fn get(&self, i: usize) -> ActionView<'a>
        requires { i < length self.now }
        ensures { slice_get self.now i ≡ Some (action_seen result) }
    {
        let action = &self.actions[i];
        ActionView {
            name: action.name.again(),
            chance: action.chance,
        }
    }
}

/// The same text, if there is one.
#[inline(always)]
pub fn view_again<'a>(text: &Option<TextView<'a>>) -> Option<TextView<'a>>
    ensures { result ≡ text.now }
{
    match text {
        Some(text) => Some(text.again()),
        None => None,
    }
}
