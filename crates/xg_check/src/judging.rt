//! All tests of a certificate.
ghost use Rattle.std.specs.Prelude.{◌≡◌, ◌*◌, ◌≤◌, IfOk, None, Ok};
ghost use Rattle.def_tree.specs.declared.Player.TheVariants.{One, Two};
ghost use Rattle.def_plan.specs.Form.{AreInOrder};
ghost use Rattle.def_cert_verdict.specs.Certificate.{last_line};
ghost use Rattle.def_cert_verdict.specs.Verdict.{bounds_tests, first_failing, shown_by, tests_below_head};
ghost use Rattle.def_cert_text.specs.Versions.{in_version_one};
ghost use Rattle.def_cert_versions.specs.Upgrade.{IsUpgradable};
ghost use Rattle.def_cert_versions.specs.Verdict.{first_trace_line_of, judged_with, tests_of, versioned_verdict};
ghost use Rattle.def_check.specs.Check.{by_tests};
ghost use Rattle.def_game_numbers.specs.WholeSums.{HasWholeSum};
ghost use Rattle.xg_cert.specs.Printed.{bounds_in};
ghost use Rattle.xg_check.specs.Answers.{AnswersVerdict, verdict_of};
ghost use Rattle.xg_check.specs.Parts.{HasEachSequence, HasSetCountsOf, HasSetsOf, plan_round_in};
ghost use Rattle.xg_check.specs.Parts.{tests_of_plan, tests_of_plans, tests_of_replies};

use crate::ends::fault_of_reply;
use crate::heads::head_fault;
use crate::lines::{last_line, trace_fault};
use crate::plans::plan_fault;
use crate::second::has_other_second;
use crate::verdict::{CheckFault, Verdict, as_check_fault};
use def_cert_text::TextVersion;
use def_cert_verdict::TestFault;
use def_reply::TraceLine;
use def_tree::Player;
use std::alloc::{AllocError, Global};
use xg_cert::Cert;
use xg_numbers::Numbers;

fn plan_round_in(player: Player, line: &TraceLine) -> u32
    ensures { result ≡ plan_round_in player line.now }
{
    match player {
        Player::One => line.low_round,
        Player::Two => line.high_round,
    }
}

/// The first test of a player's plan that fails. Its root is to be the round that it comes from, times the scale.
fn fault_of_plan(numbers: &Numbers, player: Player, cert: &Cert) -> Option<TestFault>
    requires { HasSetsOf numbers.now cert.now.certificate }
    ensures exact { result
        ≡ first_failing (tests_of_plan player numbers.now cert.now.certificate.head.scale
        (bounds_in cert.now.certificate)) }
    ensures whole { result ≡ None → HasEachSequence player numbers.now (bounds_in cert.now.certificate) }
{
    cert.facts();
    let round = plan_round_in(player, &last_line(cert.trace()));
    let wanted = round as u64 * cert.head().scale as u64;
    plan_fault(numbers.form(), player, wanted, cert)
}

/// The number of the trace's first line in the text.
fn first_trace_line(version: TextVersion) -> u32
    ensures { result ≡ first_trace_line_of version }
{
    match version {
        TextVersion::One => 8,
        TextVersion::Two => 9,
    }
}

/// The first test of both plans that fails, player one's first.
fn fault_of_plans(numbers: &Numbers, cert: &Cert) -> Option<TestFault>
    requires { HasSetsOf numbers.now cert.now.certificate }
    ensures exact { result
        ≡ first_failing (tests_of_plans numbers.now cert.now.certificate.head.scale (bounds_in cert.now.certificate)) }
    ensures one { result ≡ None → HasEachSequence One numbers.now (bounds_in cert.now.certificate) }
    ensures two { result ≡ None → HasEachSequence Two numbers.now (bounds_in cert.now.certificate) }
{
    let fault = fault_of_plan(numbers, Player::One, cert);
    if fault.is_some() {
        return fault;
    }
    fault_of_plan(numbers, Player::Two, cert)
}

/// The first test of both replies that fails, player two's first.
fn fault_of_replies(
    alloc: Global,
    numbers: &Numbers,
    cert: &Cert,
) -> Result<Option<TestFault>, AllocError>
    requires sets { HasSetsOf numbers.now cert.now.certificate }
    requires one { HasEachSequence One numbers.now (bounds_in cert.now.certificate) }
    requires two { HasEachSequence Two numbers.now (bounds_in cert.now.certificate) }
    ensures { IfOk result (λ fault. fault
        ≡ first_failing (tests_of_replies numbers.now (bounds_in cert.now.certificate))) }
{
    let form = numbers.form();
    let mut sums = vec![in alloc; 0; form.leaf_count() as usize]?;
    let mut rows = vec![in alloc; 0; form.sequence_count(Player::Two) as usize]?;
    let fault = fault_of_reply(numbers, Player::Two, cert, &mut sums, &mut rows);
    if fault.is_some() {
        return Ok(fault);
    }
    let mut rows = vec![in alloc; 0; form.sequence_count(Player::One) as usize]?;
    Ok(fault_of_reply(numbers, Player::One, cert, &mut sums, &mut rows))
}

/// The first test of the bounds that fails.
fn fault_of_bounds(
    alloc: Global,
    numbers: &Numbers,
    cert: &Cert,
) -> Result<Option<TestFault>, AllocError>
    requires { HasSetsOf numbers.now cert.now.certificate }
    ensures { IfOk result (λ fault. fault
        ≡ first_failing (bounds_tests numbers.now (first_trace_line_of cert.now.version)
        cert.now.certificate.head.scale (bounds_in cert.now.certificate))) }
{
    cert.facts();
    let fault = fault_of_plans(numbers, cert);
    if fault.is_some() {
        return Ok(fault);
    }
    let fault = fault_of_replies(alloc, numbers, cert)?;
    if fault.is_some() {
        return Ok(fault);
    }
    Ok(trace_fault(first_trace_line(cert.text_version()), cert.trace()))
}

/// The first test below the head that fails. There is none where no round was asked.
fn fault_below_head(
    alloc: Global,
    numbers: &Numbers,
    cert: &Cert,
) -> Result<Option<TestFault>, AllocError>
    requires { HasSetCountsOf numbers.now cert.now.certificate.head }
    ensures { IfOk result (λ fault. fault
        ≡ first_failing (tests_below_head numbers.now (first_trace_line_of cert.now.version)
        cert.now.certificate.head.scale cert.now.certificate.bounds)) }
{
    if cert.head().rounds == 0 {
        return Ok(None);
    }
    fault_of_bounds(alloc, numbers, cert)
}

/// The first test that fails, the second bracket aside.
fn first_fault(
    alloc: Global,
    numbers: &Numbers,
    cert: &Cert,
) -> Result<Option<TestFault>, AllocError>
    ensures { IfOk result (λ fault. fault
        ≡ first_failing (tests_of cert.now.version numbers.now cert.now.certificate)) }
{
    let fault = head_fault(cert.text_version(), numbers, cert.head());
    if fault.is_some() {
        return Ok(fault);
    }
    fault_below_head(alloc, numbers, cert)
}

/// What the certificate shows.
fn shown_by(cert: &Cert) -> Verdict
    ensures { verdict_of result ≡ shown_by cert.now.certificate.bounds }
{
    if cert.head().rounds == 0 {
        return Verdict::HeadOnly;
    }
    Verdict::Bounds {
        low: cert.low(),
        high: cert.high(),
    }
}

/// What a certificate shows whose tests all pass, unless its second bracket is another one than the sum leaves.
fn judge_second(cert: &Cert) -> Result<Verdict, CheckFault>
    requires { IsUpgradable (in_version_one cert.now.certificate) }
    ensures { AnswersVerdict result (by_tests (judged_with cert.now (Ok (shown_by cert.now.certificate.bounds)))) }
{
    if has_other_second(cert) {
        return Err(CheckFault::SecondDiffers);
    }
    Ok(shown_by(cert))
}

/// The verdict on a certificate, or the first test that fails, which may be that of the second bracket.
pub(crate) fn judge(alloc: Global, numbers: &Numbers, cert: &Cert) -> Result<Verdict, CheckFault>
    ensures exact { AnswersVerdict result (by_tests (versioned_verdict numbers.now cert.now)) }

    // What is true of all numbers of a game.
    ensures order_one { AreInOrder numbers.now.form.sets_one }
    ensures order_two { AreInOrder numbers.now.form.sets_two }
    ensures some_unit { 1 ≤ numbers.now.unit }
    ensures whole_sum { HasWholeSum numbers.now }
{
    numbers.form().facts();
    numbers.facts();
    cert.facts();
    match first_fault(alloc, numbers, cert) {
        Ok(Some(fault)) => Err(as_check_fault(fault)),
        Ok(None) => judge_second(cert),
        Err(_) => Err(CheckFault::NoMemory),
    }
}
