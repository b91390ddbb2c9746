//! The sets and the outcomes that many entries mention.
ghost use Rattle.std.specs.Prelude.{IfOk, IsTrue};
ghost use Rattle.def_canon.specs.Poker as def;
ghost use Rattle.xg_gen.specs.Again.{AreCommon, ArePlayerSets, AreWon};
ghost use Rattle.xg_gen.specs.Plain.{is_plain};

use crate::mentions::{DescribedOutcome, NamedSet, outcome, two_moves};
use crate::texts::numbered;
use std::alloc::{AllocError, Global};
use xg_record::Actions;

/// A player's sets with one card.
#[derive(Drop)]
pub(crate) struct PlayerSets {
    pub(crate) before_bet: NamedSet,
    pub(crate) facing_bet: NamedSet,
}

impl PlayerSets {
    /// Those with this card. Behind it their names have what was played before.
    pub(crate) fn of(
        alloc: Global,
        n: u32,
        card: u32,
        before: &[u8],
        facing: &[u8],
    ) -> Result<PlayerSets, AllocError>
        requires before { IsTrue (is_plain before.now) }
        requires facing { IsTrue (is_plain facing.now) }
        ensures { IfOk result (ArePlayerSets n card before.now facing.now) }
    {
        let before_bet = NamedSet {
            number: card as u64,
            name: numbered(alloc, b"", card, before)?,
        };
        let facing_bet = NamedSet {
            number: n as u64 + card as u64,
            name: numbered(alloc, b"", card, facing)?,
        };
        Ok(PlayerSets {
            before_bet,
            facing_bet,
        })
    }
}

/// The outcomes where one of the players wins.
#[derive(Drop)]
pub(crate) struct Won {
    pub(crate) one: DescribedOutcome,
    pub(crate) two: DescribedOutcome,
}

/// What all hands mention: the actions of the players' sets, and the outcomes.
#[derive(Drop)]
pub(crate) struct Common {
    pub(crate) check_or_bet: Actions,
    pub(crate) fold_or_call: Actions,
    pub(crate) by_one: Won,
    pub(crate) by_two: Won,
}

impl Common {
    /// Those of one-card poker.
    #[tactic(auto, unfolding(def_canon::specs::Poker::wins_one, def_canon::specs::Poker::wins_two))]
    pub(crate) fn new(alloc: Global) -> Result<Common, AllocError>
        ensures { IfOk result AreCommon }
    {
        Ok(Common {
            by_one: Won {
                one: outcome(alloc, 1, b"One wins 1", 1, -1)?,
                two: outcome(alloc, 3, b"One wins 2", 2, -2)?,
            },
            by_two: Won {
                one: outcome(alloc, 2, b"Two wins 1", -1, 1)?,
                two: outcome(alloc, 4, b"Two wins 2", -2, 2)?,
            },
            check_or_bet: two_moves(alloc, b"check", b"bet")?,
            fold_or_call: two_moves(alloc, b"fold", b"call")?,
        })
    }

    /// The outcomes where the cards `i` and `j` are compared.
    pub(crate) fn higher(&self, i: u32, j: u32) -> &Won
        requires { AreCommon self.now }
        ensures { AreWon (def.higher i j) result.now }
    {
        if j < i { &self.by_one } else { &self.by_two }
    }
}
