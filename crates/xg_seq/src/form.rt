//! The sequence form of a game.
ghost use Rattle.std.specs.Prelude.{◌≡◌, ◌+◌, ◌-◌, ◌<◌, ◌≤◌, length, map, sum, unsigned_abs, All, IfOk, Some};
ghost use Rattle.std.specs.Prelude.{slice_get};
ghost use Rattle.def_plan.specs.Form.{AreInOrder, placed, player_sets, sequence_count};
ghost use Rattle.def_plan.specs.Payoff.{mass_of};
ghost use Rattle.def_plan.specs.Threads.{first_leaf, next_leaf};
ghost use Rattle.def_sequence_form.specs.Form.{form_of};
ghost use Rattle.def_sequence_form.specs.Sets.{tree_sets};
ghost use Rattle.def_sums.specs.Limits.{most_mass};
ghost use Rattle.def_tree.specs.Rules.{most_nodes};
ghost use Rattle.def_tree.specs.Tree.{leaf_count, prefix};
ghost use Rattle.def_tree.specs.declared.Player.{Player};
ghost use Rattle.xg_seq.specs.Leaves.{HasSequences, KeepsLeaves, form_action_counts, form_sequences_before};
ghost use Rattle.xg_seq.specs.Leaves.{firsts_of, leaf_of};
ghost use Rattle.xg_seq.specs.Parts.{form_of_parts};
ghost use Rattle.xg_seq.specs.Table.{EndsAt, HaveFewActions, most_sequences, placed_of_row};
ghost use Rattle.xg_seq.specs.Threads.{KeepsThreads};

use crate::leaf::Leaf;
use crate::leaves::leaves_of;
use crate::rows::table_of;
use crate::table::{SetPlace, SetPlaces};
use crate::threads::{Threads, leaf_of_number, threads_of};
use def_tree::Player;
use std::alloc::{AllocError, Global};
use std::marker::Model;
use xg_sets::Sets;
use xg_tree::Tree;

/// The sequence form of a game: both players' sets and sequences, and the leaves, also by each sequence.
///
/// Sets are numbered from 1 within their player, and leaves from 1 in prefix order. Sequence 0 is the empty one.
#[derive(Drop)]
pub struct SeqForm {
    one: SetPlaces,
    two: SetPlaces,
    leaves: Vec<Leaf>,
    threads_one: Threads,
    threads_two: Threads,
}

impl Model for SeqForm {
    ghost use Rattle.def_plan.specs.Form.{SequenceForm};
    ghost use Rattle.xg_seq.specs.Leaves.{form_with};
    ghost use Rattle.xg_seq.specs.Kept.{KeepsForm};

    ghost Value = { SequenceForm };

    ghost view = { λ f. form_with f.one f.two f.leaves.items };

    ghost invariant = { λ f. KeepsForm (form_with f.one f.two f.leaves.items) f.threads_one f.threads_two };
}

// A form whose leaves aren't threaded yet.
#[derive(Drop)]
struct FormParts {
    one: SetPlaces,
    two: SetPlaces,
    leaves: Vec<Leaf>,
}

// The sets of both players and the leaves, with these weights in turn.
fn parts_of(
    alloc: Global,
    tree: &Tree,
    sets: &Sets,
    weights: &[i64],
) -> Result<FormParts, AllocError>
    requires sets { sets.now ≡ tree_sets tree.now }
    requires weights { length weights.now ≡ leaf_count (prefix tree.now) }
    requires mass { sum (map unsigned_abs weights.now) ≤ most_mass }
    ensures form { IfOk result (λ parts. form_of_parts parts ≡ form_of tree.now weights.now) }
    ensures kept { IfOk result (λ parts. KeepsLeaves (form_of_parts parts)) }
{
    let leaves = leaves_of(alloc, tree, sets, weights)?;
    let one = table_of(alloc, sets, Player::One)?;
    let two = table_of(alloc, sets, Player::Two)?;
    Ok(FormParts { one, two, leaves })
}

impl SeqForm {
    /// The sequence form of the tree, whose leaves have these weights in turn.
    pub fn build(
        alloc: Global,
        tree: &Tree,
        sets: &Sets,
        weights: &[i64],
    ) -> Result<SeqForm, AllocError>
        requires sets { sets.now ≡ tree_sets tree.now }
        requires weights { length weights.now ≡ leaf_count (prefix tree.now) }
        requires mass { sum (map unsigned_abs weights.now) ≤ most_mass }
        ensures { IfOk result (λ form. form ≡ form_of tree.now weights.now) }
    {
        let parts = parts_of(alloc, tree, sets, weights)?;
        SeqForm::with_threads(alloc, parts)
    }

    /// The same with sets that aren't needed any more. They are given back before the leaves are threaded.
    pub fn of(
        alloc: Global,
        tree: &Tree,
        sets: Sets,
        weights: &[i64],
    ) -> Result<SeqForm, AllocError>
        requires sets { sets ≡ tree_sets tree.now }
        requires weights { length weights.now ≡ leaf_count (prefix tree.now) }
        requires mass { sum (map unsigned_abs weights.now) ≤ most_mass }
        ensures { IfOk result (λ form. form ≡ form_of tree.now weights.now) }
    {
        let parts = parts_of(alloc, tree, &sets, weights);
        sets.discard();
        SeqForm::with_threads(alloc, parts?)
    }

    // The form of these parts.
    fn with_threads(alloc: Global, parts: FormParts) -> Result<SeqForm, AllocError>
        requires { KeepsLeaves (form_of_parts parts) }
        ensures { IfOk result (λ form. form ≡ form_of_parts parts) }
    {
        let threads_one = threads_of(
            alloc,
            &parts.leaves,
            Player::One,
            parts.one.sequence_count(),
        )?;
        let threads_two = threads_of(
            alloc,
            &parts.leaves,
            Player::Two,
            parts.two.sequence_count(),
        )?;
        Ok(SeqForm {
            one: parts.one,
            two: parts.two,
            leaves: parts.leaves,
            threads_one,
            threads_two,
        })
    }

    /// The number of the player's sets.
    pub fn set_count(&self, player: Player) -> u32
        ensures { result ≡ length (player_sets self.now player) }
    {
        self.table(player).set_count()
    }

    /// The number of the player's sequences, the empty one among them.
    pub fn sequence_count(&self, player: Player) -> u32
        ensures count { result ≡ sequence_count (player_sets self.now player) }

        // What is true of every form.
        ensures order { AreInOrder (player_sets self.now player) }
        ensures limit { result ≤ most_sequences }
        ensures few_actions { HaveFewActions (player_sets self.now player) }
    {
        self.table(player).sequence_count()
    }

    /// The first of the sequences that end at a set.
    pub fn first_sequence(&self, player: Player, set: u32) -> u32
        requires from_one { 1 ≤ set }
        requires there { set ≤ length (player_sets self.now player) }
        ensures { slice_get (firsts_of player self.now) (set - 1) ≡ Some result }
    {
        self.table(player).row(set).first
    }

    /// The number of a set's actions.
    pub fn actions_of(&self, player: Player, set: u32) -> u32
        requires from_one { 1 ≤ set }
        requires there { set ≤ length (player_sets self.now player) }
        ensures { slice_get (form_action_counts player self.now) (set - 1) ≡ Some result }
    {
        self.table(player).row(set).actions
    }

    /// The player's own sequence before a set.
    pub fn parent_of(&self, player: Player, set: u32) -> u32
        requires from_one { 1 ≤ set }
        requires there { set ≤ length (player_sets self.now player) }
        ensures { slice_get (form_sequences_before player self.now) (set - 1) ≡ Some result }
    {
        self.table(player).row(set).before
    }

    /// The set at which a sequence ends.
    pub fn set_of(&self, player: Player, sequence: u32) -> u32
        requires some { 1 ≤ sequence }
        requires there { sequence < sequence_count (player_sets self.now player) }
        ensures { EndsAt (player_sets self.now player) sequence result }
    {
        self.table(player).set_of(sequence)
    }

    /// The number of leaves.
    pub fn leaf_count(&self) -> u32
        ensures count { result ≡ length self.now.leaves }

        // What is true of every form.
        ensures sequences { All (HasSequences self.now) self.now.leaves }
        ensures mass { mass_of self.now.leaves ≤ most_mass }
        ensures limit { result ≤ most_nodes }
    {
        self.leaves.len() as u32
    }

    /// Leaf `z`.
    pub fn leaf(&self, z: u32) -> Leaf
        requires from_one { 1 ≤ z }
        requires there { z ≤ length self.now.leaves }
        ensures { slice_get self.now.leaves (z - 1) ≡ Some (leaf_of result) }
    {
        self.leaves[z as usize - 1]
    }

    /// The first leaf that has the player's sequence.
    pub fn first_leaf(&self, player: Player, sequence: u32) -> Option<u32>
        requires there { sequence < sequence_count (player_sets self.now player) }
        ensures { result ≡ first_leaf player sequence self.now.leaves }
    {
        leaf_of_number(self.threads(player).first[sequence as usize])
    }

    /// The next leaf after leaf `z` that has the same sequence of the player.
    pub fn next_leaf(&self, player: Player, z: u32) -> Option<u32>
        requires from_one { 1 ≤ z }
        requires there { z ≤ length self.now.leaves }
        ensures { result ≡ next_leaf player z self.now.leaves }
    {
        leaf_of_number(self.threads(player).next[z as usize - 1])
    }

    /// A set's place among its player's sequences.
    pub fn place_of(&self, player: Player, set: u32) -> SetPlace
        requires from_one { 1 ≤ set }
        requires there { set ≤ length (player_sets self.now player) }
        ensures place { slice_get (placed (player_sets self.now player)) (set - 1) ≡ Some (placed_of_row result) }
        ensures some { 1 ≤ result.actions }
        ensures earlier { result.before < result.first }
        ensures inside { result.first + result.actions ≤ sequence_count (player_sets self.now player) }
    {
        self.table(player).row(set)
    }

    /// The places of the player's sets, in order.
    pub fn places(&self, player: Player) -> &[SetPlace]
        ensures { map placed_of_row result.now ≡ placed (player_sets self.now player) }
    {
        self.table(player).places()
    }

    /// Does nothing: its clauses are what is true of every form.
    pub fn facts(&self)
        ensures order { (player : Player) → AreInOrder (player_sets self.now player) }
        ensures limit { (player : Player) → sequence_count (player_sets self.now player) ≤ most_sequences }
        ensures few_actions { (player : Player) → HaveFewActions (player_sets self.now player) }
        ensures limit_one { sequence_count self.now.sets_one ≤ most_sequences }
        ensures limit_two { sequence_count self.now.sets_two ≤ most_sequences }
        ensures sequences { All (HasSequences self.now) self.now.leaves }
        ensures mass { mass_of self.now.leaves ≤ most_mass }
        ensures leaves { length self.now.leaves ≤ most_nodes }
    {
        let _one = self.sequence_count(Player::One);
        let _two = self.sequence_count(Player::Two);
        let _leaves = self.leaf_count();
    }

    fn table(&self, player: Player) -> &SetPlaces
        ensures { result.now ≡ player_sets self.now player }
    {
        match player {
            Player::One => &self.one,
            Player::Two => &self.two,
        }
    }

    fn threads(&self, player: Player) -> &Threads
        ensures { KeepsThreads player (sequence_count (player_sets self.now player)) self.now.leaves
            result.now.first.items result.now.next.items }
    {
        match player {
            Player::One => &self.threads_one,
            Player::Two => &self.threads_two,
        }
    }
}
