//! What checking answers.
ghost use Rattle.xg_check.specs.Answers.{IsThatFault};

use def_cert_text::CertFault;
use def_cert_verdict::{TestFault, Which};
use def_file::FileFault;
use def_tree::Player;
use xg_cert::Cert;
use xg_frac::Ratio;

/// What an accepted certificate shows.
#[derive(Clone, Copy)]
pub enum Verdict {
    /// In payoff units, the floor of player one's printed plan and the ceiling of player two's.
    Bounds { low: Ratio, high: Ratio },
    /// Its head is the game's. No round was asked, so it shows no bounds.
    HeadOnly,
}

/// An accepted certificate, of either version, with what it shows.
#[derive(Drop)]
pub struct Accepted {
    pub verdict: Verdict,
    pub cert: Cert,
}

/// Why a certificate isn't accepted: the first fault of the game's file, else of the certificate's text, else the first
/// test that fails. Sets, actions and the lines of the text count from 1.
#[derive(Clone, Copy)]
pub enum CheckFault {
    File(FileFault),
    Cert(CertFault),
    /// A line of the head isn't the game's.
    HeadDiffers {
        line: u32,
    },
    /// The numbers are no plan: 0 stands for the root, else the set is the first where they aren't those of a plan.
    NotAPlan {
        player: Player,
        set: u32,
    },
    /// An action is worth more to the player than the value of its set.
    ValueTooGood {
        player: Player,
        set: u32,
        action: u32,
    },
    /// The choice is no action of its set, or isn't worth the set's value.
    ReplyNotTight {
        player: Player,
        set: u32,
    },
    /// A total isn't the worth of the empty sequence, the last traced one, or the printed bound times unit and root.
    TotalDiffers {
        end: Which,
    },
    /// A line of the trace has a wider bracket than the line before it.
    TraceWidens {
        line: u32,
    },
    /// The bracket of player two's own payoff isn't what the sum leaves of both bounds.
    SecondDiffers,
    /// Memory ran out.
    NoMemory,
}

// The test's fault as one of the check.
pub(crate) fn as_check_fault(test: TestFault) -> CheckFault
    ensures { IsThatFault test result }
{
    match test {
        TestFault::HeadDiffers { line } => CheckFault::HeadDiffers { line },
        TestFault::NotAPlan { player, set } => CheckFault::NotAPlan { player, set },
        TestFault::ValueTooGood {
            player,
            set,
            action,
        } => CheckFault::ValueTooGood {
            player,
            set,
            action,
        },
        TestFault::ReplyNotTight { player, set } => CheckFault::ReplyNotTight { player, set },
        TestFault::TotalDiffers { end } => CheckFault::TotalDiffers { end },
        TestFault::TraceWidens { line } => CheckFault::TraceWidens { line },
        TestFault::SecondDiffers => CheckFault::SecondDiffers,
    }
}
