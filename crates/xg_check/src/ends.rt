//! The tests of a reply.
ghost use Rattle.std.specs.Prelude.{◌≡◌, ◌*◌, ◌≤◌, ◌≤ℤ◌, length, pos, unsigned_abs};
ghost use Rattle.def_fraction.specs.Fraction.{most_wide};
ghost use Rattle.def_tree.specs.Opponent.{opponent};
ghost use Rattle.def_plan.specs.Form.{player_sets, sequence_count};
ghost use Rattle.def_cert_verdict.specs.Certificate.{last_line};
ghost use Rattle.def_cert_verdict.specs.Verdict.{first_failing};
ghost use Rattle.xg_cert.specs.Printed.{bounds_in, plan_in, reply_in};
ghost use Rattle.xg_check.specs.Parts.{HasEachSequence, HasSetsOf, bound_in, tests_of_reply, total_in};
ghost use Rattle.xg_check.specs.Views.{AreAllWithin};

use crate::lines::last_line;
use crate::parts::PrintedEnd;
use crate::replies::reply_fault;
use def_cert_verdict::TestFault;
use def_reply::TraceLine;
use def_tree::Player;
use xg_cert::{Cert, scale_of};
use xg_frac::Ratio;
use xg_numbers::Numbers;

pub(crate) fn opponent(player: Player) -> Player
    ensures { result ≡ opponent player }
{
    match player {
        Player::One => Player::Two,
        Player::Two => Player::One,
    }
}

fn total_in(player: Player, line: &TraceLine) -> i128
    ensures { result ≡ total_in player line.now }
{
    match player {
        Player::One => line.high,
        Player::Two => line.low,
    }
}

pub(crate) fn bound_in(player: Player, cert: &Cert) -> Ratio
    requires { 1 ≤ cert.now.certificate.head.rounds }
    ensures { result ≡ bound_in player (bounds_in cert.now.certificate) }
{
    match player {
        Player::One => cert.high(),
        Player::Two => cert.low(),
    }
}

/// What is printed of the end that a player's reply shows.
fn end_of(numbers: &Numbers, player: Player, cert: &Cert) -> PrintedEnd
    requires { 1 ≤ cert.now.certificate.head.rounds }
    ensures total { result.total ≡ (reply_in player (bounds_in cert.now.certificate)).total }
    ensures traced { result.traced ≡ total_in player (last_line (bounds_in cert.now.certificate).trace) }
    ensures bound { result.bound ≡ bound_in player (bounds_in cert.now.certificate) }
    ensures scale { unsigned_abs result.scale
        ≡ numbers.now.unit * (plan_in (opponent player) (bounds_in cert.now.certificate)).root }
    ensures from_one { pos 1 ≤ℤ result.scale }
    ensures small { unsigned_abs result.scale ≤ most_wide }
{
    cert.facts();
    PrintedEnd {
        total: cert.total(player),
        traced: total_in(player, &last_line(cert.trace())),
        bound: bound_in(player, cert),
        scale: scale_of(numbers.unit(), cert.root(opponent(player))),
    }
}

/// The first test of a player's reply that fails, where the rows are all 0, and there is room for a sum of each leaf.
pub(crate) fn fault_of_reply(
    numbers: &Numbers,
    player: Player,
    cert: &Cert,
    sums: &mut [i128],
    rows: &mut [i128],
) -> Option<TestFault>
    requires sets { HasSetsOf numbers.now cert.now.certificate }
    requires plan { HasEachSequence (opponent player) numbers.now (bounds_in cert.now.certificate) }
    requires sums { length sums.old ≡ length numbers.now.form.leaves }
    requires rows { length rows.old ≡ sequence_count (player_sets numbers.now.form player) }
    requires none { AreAllWithin 0 rows.old }
    ensures fault { result ≡ first_failing (tests_of_reply player numbers.now (bounds_in cert.now.certificate)) }
    ensures same_length { length sums.new ≡ length sums.old }
{
    cert.facts();
    let form = numbers.form();
    form.facts();
    let against = cert.numbers(opponent(player));
    let end = end_of(numbers, player, cert);
    let (values, choices) = (cert.values(player), cert.choices(player));
    reply_fault(form, player, against, values, choices, end, sums, rows)
}
