//! The reply of a player to a plan of the other one.
ghost use Rattle.std.specs.Prelude.{◌≡◌, ◌-◌, ◌<◌, ◌≤◌, length, pos, IfOk, Some, slice_get, slice_index_or, slice_set};
ghost use Rattle.def_plan.specs.Form.{player_sets};
ghost use Rattle.def_reply.specs.Reply.{choices_of, values_of};
ghost use Rattle.xg_plan.specs.Reply.{first_reply};

use def_tree::Player;
use std::alloc::{AllocError, Global};
use std::marker::Model;
use xg_seq::SeqForm;

/// A player's reply to a plan of the other player (von Stengel 1996), in player one's payoff: its total, and a choice
/// and a value for each set.
///
/// The worths of the sequences are room to work the values out.
#[derive(Drop)]
pub struct Reply {
    total: i128,
    values: Vec<i128>,
    choices: Vec<u32>,
    worths: Vec<i128>,
}

impl Model for Reply {
    ghost use Rattle.xg_plan.specs.Reply.{WorkedReply, worked};

    ghost Value = { WorkedReply };

    ghost use Rattle.std.specs.Prelude.{◌≡◌, length};

    ghost view = { λ r. worked r.total r.values.items r.choices.items r.worths.items };

    ghost invariant = { λ r. length r.choices.items ≡ length r.values.items };
}

impl Reply {
    /// A reply for the player's sets with all values and worths 0 that chooses each set's first action.
    pub fn new(alloc: Global, form: &SeqForm, player: Player) -> Result<Reply, AllocError>
        ensures { IfOk result (λ reply. reply ≡ first_reply (player_sets form.now player)) }
    {
        let set_count = form.set_count(player) as usize;
        let values = vec![in alloc; 0; set_count]?;
        let choices = vec![in alloc; 1; set_count]?;
        let worths = vec![in alloc; 0; form.sequence_count(player) as usize]?;
        Ok(Reply {
            total: 0,
            values,
            choices,
            worths,
        })
    }

    /// The action that is chosen at a set, counted from 1.
    pub fn choice(&self, set: u32) -> u32
        requires from_one { 1 ≤ set }
        requires there { set ≤ length self.now.reply.sets }
        ensures { slice_get (choices_of self.now.reply.sets) (set - 1) ≡ Some result }
    {
        self.choices[set as usize - 1]
    }

    /// A set's value.
    pub fn value(&self, set: u32) -> i128
        requires from_one { 1 ≤ set }
        requires there { set ≤ length self.now.reply.sets }
        ensures { slice_get (values_of self.now.reply.sets) (set - 1) ≡ Some result }
    {
        self.values[set as usize - 1]
    }

    /// The worth of the empty sequence.
    pub fn total(&self) -> i128
        ensures { result ≡ self.now.reply.total }
    {
        self.total
    }

    /// Puts a choice and a value at a set.
    pub fn put(&mut self, set: u32, choice: u32, value: i128)
        requires from_one { 1 ≤ set }
        requires there { set ≤ length self.old.reply.sets }
        ensures sets { self.new.reply.sets ≡ slice_set self.old.reply.sets (set - 1)
            (record { value = value; choice = choice }) }
        ensures total { self.new.reply.total ≡ self.old.reply.total }
        ensures worths { self.new.worths ≡ self.old.worths }
    {
        self.choices[set as usize - 1] = choice;
        self.values[set as usize - 1] = value;
    }

    /// Puts the total.
    pub fn put_total(&mut self, total: i128)
        ensures total { self.new.reply.total ≡ total }
        ensures sets { self.new.reply.sets ≡ self.old.reply.sets }
        ensures worths { self.new.worths ≡ self.old.worths }
    {
        self.total = total;
    }

    /// What is put as the worth of a sequence.
    pub fn worth(&self, sequence: u32) -> i128
        requires { sequence < length self.now.worths }
        ensures { result ≡ slice_index_or self.now.worths sequence (pos 0) }
    {
        self.worths[sequence as usize]
    }

    /// Puts the worth of a sequence.
    pub fn put_worth(&mut self, sequence: u32, worth: i128)
        requires { sequence < length self.old.worths }
        ensures worths { self.new.worths ≡ slice_set self.old.worths sequence worth }
        ensures reply { self.new.reply ≡ self.old.reply }
    {
        self.worths[sequence as usize] = worth;
    }
}
