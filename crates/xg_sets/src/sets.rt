//! Both players' sets.
ghost use Rattle.std.specs.Prelude.{◌≡◌, ◌-◌, ◌≤◌, length, Some, slice_get};
ghost use Rattle.xg_sets.specs.OfPlayer.{action_counts, sequences_before_sets, of_player, as_player_sets};
ghost use Rattle.xg_sets.specs.Table.{HasFewRows};

use crate::next_nodes::NextNodes;
use crate::table::FoundSets;
use def_tree::Player;
use std::marker::Model;

/// The information sets of both players, the nodes of each set, and the number of each player's sequence at each node
/// of the tree.
///
/// Sets are numbered from 1 within their player, and nodes from 1 in prefix order. Sequence 0 is the empty one.
#[derive(Drop)]
pub struct Sets {
    one: FoundSets,
    two: FoundSets,
    next_nodes: NextNodes,
}

impl Model for Sets {
    ghost use Rattle.def_sequence_form.specs.Sets.{TreeSets};
    ghost use Rattle.xg_sets.specs.Table.{HasFewRows};
    ghost use Rattle.xg_sets.specs.OfPlayer.{as_player_sets};

    ghost Value = { TreeSets };

    ghost view = { λ s. record { one = as_player_sets s.one; two = as_player_sets s.two; next_nodes = s.next_nodes } };

    ghost invariant = { λ s. HasFewRows s.one × HasFewRows s.two };
}

impl Sets {
    // The sets of these tables, with the next node of each node.
    pub(crate) fn of(one: FoundSets, two: FoundSets, next_nodes: NextNodes) -> Sets
        requires few_one { HasFewRows one }
        requires few_two { HasFewRows two }
        ensures { result ≡ record { one = as_player_sets one; two = as_player_sets two; next_nodes = next_nodes } }
    {
        Sets {
            one,
            two,
            next_nodes,
        }
    }

    /// Lets go of the sets, as `drop` does. A caller that drops them itself has code of its own for each table.
    pub fn discard(self) {
        drop(self);
    }

    /// The number of the player's sets.
    pub fn count(&self, player: Player) -> u32
        ensures { result ≡ length (of_player player self.now).sets }
    {
        self.table(player).count()
    }

    /// The number of a set's actions.
    pub fn actions(&self, player: Player, set: u32) -> u32
        requires from_one { 1 ≤ set }
        requires there { set ≤ length (of_player player self.now).sets }
        ensures { slice_get (action_counts player self.now) (set - 1) ≡ Some result }
    {
        self.table(player).row(set).actions
    }

    /// The player's own sequence before a set.
    pub fn before(&self, player: Player, set: u32) -> u32
        requires from_one { 1 ≤ set }
        requires there { set ≤ length (of_player player self.now).sets }
        ensures { slice_get (sequences_before_sets player self.now) (set - 1) ≡ Some result }
    {
        self.table(player).row(set).before
    }

    /// The first node of a set.
    pub fn first_node(&self, player: Player, set: u32) -> u32
        requires from_one { 1 ≤ set }
        requires there { set ≤ length (of_player player self.now).sets }
        ensures { slice_get (of_player player self.now).first_nodes (set - 1) ≡ Some result }
    {
        self.table(player).row(set).node
    }

    /// The next node of the set that node `k` is in, and none at the last one. Leaves and chance nodes have none.
    pub fn next_node(&self, k: u32) -> Option<u32>
        requires from_one { 1 ≤ k }
        requires there { k ≤ length self.now.next_nodes }
        ensures { slice_get self.now.next_nodes (k - 1) ≡ Some result }
    {
        self.next_nodes.after(k)
    }

    /// The player's sequence at node `k`.
    pub fn sequence_at(&self, player: Player, k: u32) -> u32
        requires from_one { 1 ≤ k }
        requires there { k ≤ length (of_player player self.now).at_nodes }
        ensures { slice_get (of_player player self.now).at_nodes (k - 1) ≡ Some result }
    {
        self.table(player).sequence_at(k)
    }

    fn table(&self, player: Player) -> &FoundSets
        ensures of_player { as_player_sets result.now ≡ of_player player self.now }
        ensures few { HasFewRows result.now }
    {
        match player {
            Player::One => &self.one,
            Player::Two => &self.two,
        }
    }
}
