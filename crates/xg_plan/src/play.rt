//! The play of a player, in the units of each set.
ghost use Rattle.std.specs.Prelude.{◌≡◌, ◌+◌, ◌<◌, ◌≤◌, length, replicate, slice_index, slice_set, IfOk};
ghost use Rattle.def_plan.specs.Form.{player_sets, sequence_count};

use def_tree::Player;
use std::alloc::{AllocError, Global};
use std::marker::Model;
use xg_seq::SeqForm;

/// How a player plays at each set: what each sequence gets of its set's 65,536 units.
///
/// The empty sequence, at which no action ends, has 0.
#[derive(Drop)]
pub struct Play {
    pub(crate) units: Vec<u32>,
}

impl Model for Play {
    ghost use Rattle.std.specs.Prelude.{ℕ, List};
    ghost use Rattle.xg_plan.specs.Play.{KeepsNoneOfEmpty};

    ghost Value = { List ℕ };

    ghost view = { λ p. p.units.items };

    ghost invariant = { λ p. KeepsNoneOfEmpty p.units.items };
}

impl Play {
    /// A play for the player's sequences that gives nothing to any of them.
    pub fn new(alloc: Global, form: &SeqForm, player: Player) -> Result<Play, AllocError>
        ensures { IfOk result (λ play. play ≡ replicate (sequence_count (player_sets form.now player)) 0) }
    {
        let units = vec![in alloc; 0; form.sequence_count(player) as usize]?;
        Ok(Play { units })
    }

    /// The units of a sequence.
    pub fn of(&self, sequence: u32) -> u32
        requires from_one { 1 ≤ sequence }
        requires there { sequence < length self.now }
        ensures { result ≡ slice_index self.now sequence }
    {
        self.units[sequence as usize]
    }

    /// The units of all sequences.
    pub fn units(&self) -> &[u32]
        ensures { result.now ≡ self.now }
    {
        &self.units
    }

    /// Gives a sequence these units.
    pub fn set(&mut self, sequence: u32, units: u32)
        requires from_one { 1 ≤ sequence }
        requires there { sequence < length self.old }
        ensures { self.new ≡ slice_set self.old sequence units }
    {
        self.units[sequence as usize] = units;
    }

    /// Gives a sequence these units, and the sequence behind it those of the next one.
    pub fn set_two(&mut self, sequence: u32, units: u32, next: u32)
        requires from_one { 1 ≤ sequence }
        requires there { sequence + 1 < length self.old }
        ensures { self.new ≡ slice_set (slice_set self.old sequence units) (sequence + 1) next }
    {
        let first = sequence as usize;
        self.units[first] = units;
        self.units[first + 1] = next;
    }

    /// Nothing runs: every play has a number for the empty sequence, and it is 0.
    pub fn gives_none_to_empty(&self)
        ensures there { 1 ≤ length self.now }
        ensures none { slice_index self.now 0 ≡ 0 }
    {
        let _units = &self.units;
    }
}
