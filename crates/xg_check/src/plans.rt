//! The tests of a plan.
ghost use Rattle.std.specs.Prelude.{◌≡◌, ◌≤◌, length, None};
ghost use Rattle.def_plan.specs.Form.{player_sets, sequence_count};
ghost use Rattle.def_cert_verdict.specs.Certificate.{printed_numbers};
ghost use Rattle.def_cert_verdict.specs.Verdict.{first_failing, first_of_other_size, not_a_plan_at, plan_tests};
ghost use Rattle.xg_cert.specs.Printed.{bounds_in, plan_in, set_count_in};

use crate::plan_sums::first_not_adding;
use def_cert_verdict::TestFault;
use def_tree::Player;
use xg_cert::Cert;
use xg_seq::SeqForm;

fn not_a_plan_at(player: Player, set: Option<u32>) -> Option<TestFault>
    ensures { result ≡ not_a_plan_at player set }
{
    match set {
        Some(set) => Some(TestFault::NotAPlan { player, set }),
        None => None,
    }
}

// The first set whose numbers aren't as many as its actions.
fn first_of_other_size(form: &SeqForm, player: Player, cert: &Cert) -> Option<u32>
    requires asked { 1 ≤ cert.now.certificate.head.rounds }
    requires sets { set_count_in player cert.now.certificate.head ≡ length (player_sets form.now player) }
    requires weights { length (plan_in player (bounds_in cert.now.certificate)).weights
        ≡ length (player_sets form.now player) }
    ensures { result
        ≡ first_of_other_size 1 (player_sets form.now player)
        (plan_in player (bounds_in cert.now.certificate)).weights }
{
    for k in 0..form.set_count(player) {
        if cert.weights(player, k + 1).len() != form.actions_of(player, k + 1) as usize {
            return Some(k + 1);
        }
    }
    None
}

/// The first test of a player's plan that fails: of its root, then of how many numbers each set has, then of their
/// sums.
pub(crate) fn plan_fault(
    form: &SeqForm,
    player: Player,
    wanted: u64,
    cert: &Cert,
) -> Option<TestFault>
    requires asked { 1 ≤ cert.now.certificate.head.rounds }
    requires sets { set_count_in player cert.now.certificate.head ≡ length (player_sets form.now player) }
    requires weights { length (plan_in player (bounds_in cert.now.certificate)).weights
        ≡ length (player_sets form.now player) }
    ensures exact { result
        ≡ first_failing (plan_tests player (player_sets form.now player) wanted
        (plan_in player (bounds_in cert.now.certificate))) }
    ensures whole { result ≡ None
        → length (printed_numbers (plan_in player (bounds_in cert.now.certificate)))
        ≡ sequence_count (player_sets form.now player) }
{
    let root = cert.root(player);
    if root == 0 || root != wanted {
        return Some(TestFault::NotAPlan { player, set: 0 });
    }
    let other_size = first_of_other_size(form, player, cert);
    if other_size.is_some() {
        return not_a_plan_at(player, other_size);
    }
    let not_adding = first_not_adding(form, player, cert.numbers(player));
    not_a_plan_at(player, not_adding)
}
