//! A player's regrets.
ghost use Rattle.std.specs.Prelude.{◌≡◌, ◌<◌, ◌≤◌, length, pos, replicate, IfOk};
ghost use Rattle.def_plan.specs.Form.{player_sets};
ghost use Rattle.def_round.specs.Play.{regret_of};
ghost use Rattle.def_sums.specs.Limits.{most_rounds};
ghost use Rattle.def_plus.specs.Cut.{cut};
ghost use Rattle.xg_closer.specs.Regrets.{none_so_far};

use crate::cutting::cut_kept;
use def_tree::Player;
use std::alloc::{AllocError, Global};
use std::marker::Model;
use xg_seq::SeqForm;

/// A player's regrets: for each sequence what playing it would have won more than the play of its set, over all rounds.
///
/// They are in units of the weights of the leaves times the root of the other player's plans, and are kept exactly, the
/// negative ones too unless they are cut (Zinkevich, Johanson, Bowling and Piccione 2007). The empty sequence, at which
/// no action ends, has 0. The room that a round needs is taken once, by `new`.
#[derive(Drop)]
pub struct Regrets {
    // no less than the size of each small regret, as long as the regrets are kept as small ones
    pub(crate) most_small: Option<u64>,
    pub(crate) small_regrets: Vec<i64>,
    pub(crate) regrets: Vec<i128>,
    pub(crate) worths: Vec<i128>,
    // in which a round whose rows are small enough needs half the memory
    pub(crate) small_worths: Vec<i64>,
    pub(crate) rounds: u32,
}

impl Model for Regrets {
    ghost use Rattle.xg_closer.specs.Regrets.{KeepsRegrets, RegretsSoFar, kept_regrets};

    ghost Value = { RegretsSoFar };

    ghost view = { λ r. record {
      of_sequences = kept_regrets r.most_small r.small_regrets.items r.regrets.items;
      closed = r.rounds;
    } };

    ghost invariant = { λ r.
        KeepsRegrets r.most_small r.small_regrets.items r.regrets.items r.worths.items r.small_worths.items r.rounds };
}

impl Regrets {
    /// No regrets yet, with room for the player's sequences.
    pub fn new(alloc: Global, form: &SeqForm, player: Player) -> Result<Regrets, AllocError>
        ensures { IfOk result (λ regrets. regrets ≡ none_so_far (player_sets form.now player)) }
    {
        let count = form.sequence_count(player) as usize;
        let Ok(small_regrets) = vec![in alloc; 0i64; count] else {
            return Err(AllocError);
        };
        let Ok(regrets) = vec![in alloc; 0i128; count] else {
            drop(small_regrets);
            return Err(AllocError);
        };
        let Ok(worths) = vec![in alloc; 0i128; count] else {
            drop(small_regrets);
            drop(regrets);
            return Err(AllocError);
        };
        let Ok(small_worths) = vec![in alloc; 0i64; count] else {
            drop(small_regrets);
            drop(regrets);
            drop(worths);
            return Err(AllocError);
        };
        Ok(Regrets {
            most_small: Some(0),
            small_regrets,
            regrets,
            worths,
            small_worths,
            rounds: 0,
        })
    }

    /// The regret of a sequence.
    pub fn of(&self, sequence: u32) -> i128
        requires from_one { 1 ≤ sequence }
        requires there { sequence < length self.now.of_sequences }
        ensures { result ≡ regret_of self.now.of_sequences sequence }
    {
        match self.most_small {
            Some(_) => self.small_regrets[sequence as usize] as i128,
            None => self.regrets[sequence as usize],
        }
    }

    /// The number of rounds that were closed.
    pub fn rounds(&self) -> u32
        ensures count { result ≡ self.now.closed }

        // What is true of all regrets.
        ensures limit { result ≤ most_rounds }
    {
        self.rounds
    }

    /// Puts 0 for each regret below 0, as regret matching plus does after each round (Tammelin 2014). Takes no memory.
    pub fn cut(&mut self)
        ensures regrets { self.new.of_sequences ≡ cut self.old.of_sequences }
        ensures count { length self.new.of_sequences ≡ length self.old.of_sequences }
        ensures rounds { self.new.closed ≡ self.old.closed }
    {
        cut_kept(self.most_small, &mut self.small_regrets, &mut self.regrets);
    }

    /// Begins anew: no rounds, and no regrets.
    pub fn clear(&mut self)
        ensures regrets { self.new.of_sequences ≡ replicate (length self.old.of_sequences) (pos 0) }
        ensures rounds { self.new.closed ≡ 0 }
    {
        self.small_regrets.fill(0);
        self.most_small = Some(0);
        self.rounds = 0;
    }
}
