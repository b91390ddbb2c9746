//! The lines that say why a certificate isn't accepted.
ghost use Rattle.std.specs.Prelude.{◌≡◌, ◌++◌, IfOk, string_bytes};
ghost use Rattle.std.specs.Fmt.{decimal};
ghost use Rattle.def_program.specs.CheckLines.{cert_fault_line, player_number};
ghost use Rattle.def_program.specs.Text.{line_feed};
ghost use Rattle.xg_run.specs.RefusalLine.{IsCheckLine};

use std::alloc::{AllocError, Global};
use xg_check::{CertFault, CheckFault, Which};
use xg_load::fault_line;
use xg_plan::Player;

/// The line of a check's fault; want of memory has none.
pub fn check_fault_line(alloc: Global, fault: CheckFault) -> Result<String, AllocError>
    ensures { IfOk result (λ line. IsCheckLine fault (string_bytes line)) }
{
    match fault {
        CheckFault::File(fault) => fault_line(alloc, fault),
        CheckFault::Cert(fault) => cert_fault_line(alloc, fault),
        CheckFault::HeadDiffers { line } => {
            number_line(alloc, "refused 27 HeadDiffers line ", line as usize)
        }
        CheckFault::NotAPlan { player, set } => {
            let player = player_number(player);
            format!(in alloc; "refused 28 NotAPlan player {player} set {set}\n")
        }
        CheckFault::ValueTooGood {
            player,
            set,
            action,
        } => {
            let player = player_number(player);
            format!(in alloc; "refused 29 ValueTooGood player {player} set {set} action {action}\n")
        }
        CheckFault::ReplyNotTight { player, set } => {
            let player = player_number(player);
            format!(in alloc; "refused 30 ReplyNotTight player {player} set {set}\n")
        }
        CheckFault::TotalDiffers { end: Which::Lower } => String::from_str(
            alloc,
            "refused 31 TotalDiffers lower\n",
        ),
        CheckFault::TotalDiffers { end: Which::Upper } => String::from_str(
            alloc,
            "refused 31 TotalDiffers upper\n",
        ),
        CheckFault::TraceWidens { line } => {
            number_line(alloc, "refused 32 TraceWidens line ", line as usize)
        }
        CheckFault::SecondDiffers => String::from_str(alloc, "refused 33 SecondDiffers\n"),
        CheckFault::NoMemory => Err(AllocError),
    }
}

/// The line of the first fault of a certificate's text.
fn cert_fault_line(alloc: Global, fault: CertFault) -> Result<String, AllocError>
    ensures { IfOk result (λ line. string_bytes line ≡ cert_fault_line fault) }
{
    match fault {
        CertFault::CertSyntax { at } => number_line(alloc, "refused 22 CertSyntax at ", at),
        CertFault::CertNumber { at } => number_line(alloc, "refused 23 CertNumber at ", at),
        CertFault::CertVersion => String::from_str(alloc, "refused 24 CertVersion\n"),
        CertFault::CertShort => String::from_str(alloc, "refused 25 CertShort\n"),
        CertFault::CertTrailing { at } => number_line(alloc, "refused 26 CertTrailing at ", at),
    }
}

/// The line that ends with a number.
fn number_line(alloc: Global, front: &str, number: usize) -> Result<String, AllocError>
    ensures { IfOk result (λ line. string_bytes line ≡ front.now ++ (decimal number ++ line_feed)) }
{
    format!(in alloc; "{front}{number}\n")
}

fn player_number(player: Player) -> u32
    ensures { result ≡ player_number player }
{
    match player {
        Player::One => 1,
        Player::Two => 2,
    }
}
