//! The plan of a player, in whole numbers.
ghost use Rattle.std.specs.Prelude.{◌≡◌, length, replicate, slice_index, IfOk};
ghost use Rattle.def_plan.specs.Form.{player_sets};
ghost use Rattle.def_plan.specs.Plan.{cleared};

use def_tree::Player;
use std::alloc::{AllocError, Global};
use std::marker::Model;
use xg_seq::SeqForm;

/// A realisation plan in whole numbers (von Stengel 1996): a number for each of a player's sequences.
///
/// The number of the empty sequence is the plan's root. A plan of which nothing is dealt yet has only zeros.
#[derive(Drop)]
pub struct Plan {
    pub(crate) weights: Vec<u64>,
}

impl Model for Plan {
    ghost use Rattle.std.specs.Prelude.{ℕ, ◌≤◌, List, length};

    ghost Value = { List ℕ };

    ghost view = { λ p. p.weights.items };

    ghost invariant = { λ p. 1 ≤ length p.weights.items };
}

impl Plan {
    /// A cleared plan for the player's sequences.
    pub fn new(alloc: Global, form: &SeqForm, player: Player) -> Result<Plan, AllocError>
        ensures { IfOk result (λ plan. plan ≡ cleared (player_sets form.now player)) }
    {
        let weights = vec![in alloc; 0; form.sequence_count(player) as usize]?;
        Ok(Plan { weights })
    }

    /// The number of the empty sequence.
    pub fn root(&self) -> u64
        ensures { result ≡ slice_index self.now 0 }
    {
        self.weights[0]
    }

    /// The numbers of all sequences, the root first.
    pub fn weights(&self) -> &[u64]
        ensures { result.now ≡ self.now }
    {
        &self.weights
    }

    /// Gives each sequence the number that it has in another plan of the form. Takes no memory.
    pub fn copy_from(&mut self, plan: &Plan)
        requires { length self.old ≡ length plan.now }
        ensures { self.new ≡ plan.now }
    {
        self.copy_weights(&plan.weights);
    }

    /// Gives each sequence its number of these, the root first. Takes no memory.
    pub fn copy_weights(&mut self, weights: &[u64])
        requires { length self.old ≡ length weights.now }
        ensures { self.new ≡ weights.now }
    {
        self.weights.copy_from_slice(weights);
    }

    /// Gives each sequence 0.
    pub fn clear(&mut self)
        ensures { self.new ≡ replicate (length self.old) 0 }
    {
        self.weights.fill(0);
    }
}
