//! Checking bytes.
ghost use Rattle.std.specs.Prelude.{◌≡◌, ◌≤◌, IfOk, Ok, length};
ghost use Rattle.def_file.specs.Reading.{game_at, most_bytes};
ghost use Rattle.def_cert_text.specs.CertText.{versioned_in};
ghost use Rattle.def_cert_versions.specs.Upgrade.{IsUpgradable};
ghost use Rattle.def_check.specs.Check.{accepted_in_numbers, checked, verdict_on, most_cert_bytes};
ghost use Rattle.def_check.specs.Shown.{Shows, ShowsOfFile};
ghost use Rattle.xg_check.specs.Answers.{AnswersVerdict, IsHeadOnlyWithoutRounds, IsOpened, verdict_in, verdict_of};
ghost use Rattle.xg_game.specs.Refusals as refusals;

use crate::judging::judge;
use crate::verdict::{Accepted, CheckFault, Verdict};
use std::alloc::Global;
use xg_cert::{CertRefused, read_cert};
use xg_numbers::Numbers;
use xg_read::{Refused, read_game};

/// Checks a certificate of at most 268,435,456 bytes against a game file of at most 67,108,864 bytes.
///
/// Memory apart, the answer is the file's first fault, else the certificate's, else the first test that fails, else
/// what the certificate shows.
pub fn check(alloc: Global, game_bytes: &[u8], cert_bytes: &[u8]) -> Result<Verdict, CheckFault>
    requires game { length game_bytes.now ≤ most_bytes }
    requires certificate { length cert_bytes.now ≤ most_cert_bytes }
    ensures exact { AnswersVerdict result (checked game_bytes.now cert_bytes.now) }

    // What is accepted is shown of the file's game, whoever wrote the certificate.
    ensures shown { IfOk result (λ verdict. ShowsOfFile game_bytes.now cert_bytes.now (verdict_of verdict)) }

    // The head alone is accepted exactly where no round was asked.
    ensures head_only { IfOk result (IsHeadOnlyWithoutRounds cert_bytes.now) }
{
    match accept(alloc, game_bytes, cert_bytes) {
        Ok(accepted) => Ok(accepted.verdict),
        Err(fault) => Err(fault),
    }
}

/// Checks as `check` does, and gives what is accepted with what it shows.
pub fn accept(alloc: Global, game_bytes: &[u8], cert_bytes: &[u8]) -> Result<Accepted, CheckFault>
    requires game { length game_bytes.now ≤ most_bytes }
    requires certificate { length cert_bytes.now ≤ most_cert_bytes }
    ensures exact { AnswersVerdict (verdict_in result) (checked game_bytes.now cert_bytes.now) }
    ensures shown { IfOk result (λ accepted.
        ShowsOfFile game_bytes.now cert_bytes.now (verdict_of accepted.verdict)) }
    ensures head_only { IfOk result (λ accepted. IsHeadOnlyWithoutRounds cert_bytes.now accepted.verdict) }

    // The certificate is what the bytes say, and can be upgraded.
    ensures said { IfOk result (λ accepted. versioned_in cert_bytes.now ≡ Ok accepted.cert) }
    ensures upgradable { IfOk result (λ accepted. IsUpgradable accepted.cert) }
{
    match open(alloc, game_bytes) {
        Ok(numbers) => accept_bytes(alloc, &numbers, cert_bytes),
        Err(Refused::File(fault)) => Err(CheckFault::File(fault)),
        Err(Refused::NoMemory) => Err(CheckFault::NoMemory),
    }
}

/// The game of a file in numbers, or the file's first fault.
fn open(alloc: Global, game_bytes: &[u8]) -> Result<Numbers, Refused>
    requires { length game_bytes.now ≤ most_bytes }
    ensures exact { refusals.Answers result (accepted_in_numbers (game_at game_bytes.now)) }
    ensures opened { IfOk result (IsOpened game_bytes.now) }
{
    let game = read_game(alloc, game_bytes)?;
    Numbers::of(alloc, game)
}

/// The certificate that the bytes say with the verdict on it, or its first fault.
fn accept_bytes(alloc: Global, numbers: &Numbers, cert_bytes: &[u8]) -> Result<Accepted, CheckFault>
    ensures exact { AnswersVerdict (verdict_in result) (verdict_on numbers.now (versioned_in cert_bytes.now)) }
    ensures shown { IfOk result (λ accepted. Shows numbers.now cert_bytes.now (verdict_of accepted.verdict)) }
    ensures head_only { IfOk result (λ accepted. IsHeadOnlyWithoutRounds cert_bytes.now accepted.verdict) }
    ensures said { IfOk result (λ accepted. versioned_in cert_bytes.now ≡ Ok accepted.cert) }
    ensures upgradable { IfOk result (λ accepted. IsUpgradable accepted.cert) }
{
    match read_cert(alloc, cert_bytes) {
        Ok(cert) => match judge(alloc, numbers, &cert) {
            Ok(verdict) => Ok(Accepted { verdict, cert }),
            Err(fault) => Err(fault),
        },
        Err(CertRefused::Cert(fault)) => Err(CheckFault::Cert(fault)),
        Err(CertRefused::NoMemory) => Err(CheckFault::NoMemory),
    }
}
