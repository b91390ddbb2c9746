//! The actions of a set.
ghost use Rattle.std.specs.Prelude.{◌≡◌, ◌<◌, [], ◌∷◌, ◌++◌, Some, length, slice_get, OnOk, OnErr};
ghost use Rattle.xg_record.specs.Action.{action_of};

use std::alloc::{AllocError, Global};
use std::marker::Model;
use xg_frac::Frac;
use xg_lex::Text;

/// An action of a set: its name, and its probability where chance moves. Where a player moves that is 0.
#[derive(Drop)]
pub struct Action {
    pub name: Text,
    pub chance: Frac,
}

/// The actions of a set, in their order.
#[derive(Drop)]
pub struct Actions {
    actions: Vec<Action>,
}

impl Model for Actions {
    ghost use Rattle.std.specs.Prelude.{List, map};
    ghost use Rattle.def_file.specs.Content as content;

    ghost Value = { List content.Action };

    ghost use Rattle.xg_record.specs.Action.{action_of};

    ghost view = { λ a. map action_of a.actions.items };
}

impl Actions {
    /// No actions.
    pub fn new(alloc: Global) -> Actions
        ensures { result ≡ [] }
    {
        Actions {
            actions: Vec::new(alloc),
        }
    }

    /// Puts an action last.
    pub fn push(&mut self, action: Action) -> Result<(), AllocError>
        ensures ok { OnOk result (self.new ≡ self.old ++ action_of action ∷ []) }
        ensures err { OnErr result (self.new ≡ self.old) }
    {
        self.actions.push(action)?;
        Ok(())
    }

    /// How many actions there are.
    pub fn len(&self) -> usize
        ensures { result ≡ length self.now }
    {
        self.actions.len()
    }

    /// The action at `i`, which counts from 0.
    pub fn get(&self, i: usize) -> &Action
        requires { i < length self.now }
        ensures { slice_get self.now i ≡ Some (action_of result.now) }
    {
        &self.actions[i]
    }
}
