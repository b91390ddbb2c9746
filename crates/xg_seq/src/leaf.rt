//! A leaf of the form.
ghost use Rattle.std.specs.Prelude.{◌≡◌};
ghost use Rattle.def_plan.specs.Form.{leaf_sequence};
ghost use Rattle.xg_seq.specs.Leaves.{leaf_of};

use def_tree::Player;

/// A leaf: both players' last own sequences on its path, and its weight.
///
/// The weight is reach times player one's payoff, in whole numbers.
#[derive(Clone, Copy)]
pub struct Leaf {
    pub seq1: u32,
    pub seq2: u32,
    pub w: i64,
}

impl Leaf {
    /// The player's last own sequence on its path.
    pub fn sequence(self, player: Player) -> u32
        ensures { result ≡ leaf_sequence player (leaf_of self) }
    {
        match player {
            Player::One => self.seq1,
            Player::Two => self.seq2,
        }
    }
}
