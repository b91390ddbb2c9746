//! The test of the bracket of player two's own payoff.
ghost use Rattle.std.specs.Prelude.{◌≡◌, ◌≤◌, ◌&&◌, not};
ghost use Rattle.def_fraction.specs.Order.{difference_of};
ghost use Rattle.def_cert_verdict.specs.Verdict.{is_same_fraction};
ghost use Rattle.def_cert_text.specs.Versions.{has_second, in_version_one};
ghost use Rattle.def_cert_versions.specs.Upgrade.{IsUpgradable};
ghost use Rattle.def_cert_versions.specs.Verdict.{is_same_bracket, second_of};
ghost use Rattle.xg_cert.specs.Printed.{bounds_in};
ghost use Rattle.xg_check.specs.Parts.{bound_in};

use crate::ends::{bound_in, opponent};
use def_tree::Player;
use xg_cert::{Cert, second_end};
use xg_frac::Ratio;

/// What the sum leaves of the bound that a player's reply shows.
fn left_of(player: Player, cert: &Cert) -> Ratio
    requires asked { 1 ≤ cert.now.certificate.head.rounds }
    requires upgradable { IsUpgradable (in_version_one cert.now.certificate) }
    ensures { result
        ≡ difference_of cert.now.certificate.head.sum (bound_in player (bounds_in cert.now.certificate)) }
{
    cert.facts();
    let head = cert.head();
    let root = cert.root(opponent(player));
    second_end(head.sum, head.unit, root, bound_in(player, cert))
}

fn is_bracket(printed: (Ratio, Ratio), low: Ratio, high: Ratio) -> bool
    ensures { result ≡ (is_same_fraction printed.0 low && is_same_fraction printed.1 high) }
{
    printed.0 == low && printed.1 == high
}

/// Whether a text of version 2 tells another bracket of player two's own payoff than the sum leaves of both bounds.
pub(crate) fn has_other_second(cert: &Cert) -> bool
    requires { IsUpgradable (in_version_one cert.now.certificate) }
    ensures { result ≡ (has_second cert.now.version
        && not (is_same_bracket cert.now.second (second_of cert.now.certificate))) }
{
    if cert.head().rounds == 0 {
        return false;
    }
    match cert.second() {
        Some(printed) => {
            let low = left_of(Player::One, cert);
            let high = left_of(Player::Two, cert);
            !is_bracket(printed, low, high)
        }
        None => false,
    }
}
