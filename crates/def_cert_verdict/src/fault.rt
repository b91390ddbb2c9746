//! Why a certificate is refused once it is read.

use def_tree::Player;

/// An end of the bracket.
#[derive(Clone, Copy, PartialEq, Eq)]
pub enum Which {
    /// The floor of player one's plan, which the reply of player two shows.
    Lower,
    /// The ceiling of player two's plan, which the reply of player one shows.
    Upper,
}

/// The first test that a certificate fails. Sets, actions and the lines of the text count from 1.
#[derive(Clone, Copy)]
pub enum TestFault {
    /// A line of the head isn't the game's.
    HeadDiffers {
        line: u32,
    },
    /// The numbers are no plan: 0 stands for the root, else the set is the first where they aren't those of a plan.
    NotAPlan {
        player: Player,
        set: u32,
    },
    /// An action is worth more to the player than the value of its set.
    ValueTooGood {
        player: Player,
        set: u32,
        action: u32,
    },
    /// The choice is no action of its set, or isn't worth the set's value.
    ReplyNotTight {
        player: Player,
        set: u32,
    },
    /// A total isn't the worth of the empty sequence, the last traced one, or the printed bound times unit and root.
    TotalDiffers {
        end: Which,
    },
    /// A line of the trace has a wider bracket than the line before it.
    TraceWidens {
        line: u32,
    },
    /// The bracket of player two's own payoff isn't what the sum leaves of both bounds.
    SecondDiffers,
}
