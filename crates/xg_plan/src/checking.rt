//! The test of numbers: whether they are a plan.
ghost use Rattle.std.specs.Prelude.{◌≡◌, ◌+◌, ◌-◌, ◌^◌, ◌<◌, ◌≤◌, ◌↔◌};
ghost use Rattle.std.specs.Prelude.{IfSome, IsNone, IsTrue, length, slice_index_or};
ghost use Rattle.def_plan.specs.Form.{PlacedSet, placed, player_sets, sequence_count};
ghost use Rattle.def_plan.specs.Plan.{AddsUp, IsBadSet, IsPlan, bad_set};
ghost use Rattle.def_round.specs.Shares.{weight_sum};

use def_tree::Player;
use xg_seq::SeqForm;

/// Whether the numbers are a plan of this root.
pub fn is_plan(form: &SeqForm, player: Player, root: u64, weights: &[u64]) -> bool
    ensures { IsTrue result ↔ IsPlan (player_sets form.now player) root weights.now }
{
    bad_set(form, player, root, weights).is_none()
}

/// What keeps the numbers from being a plan of this root: 0 where they have no such root or aren't one for each
/// sequence, else the first set whose sequences' numbers don't add up to that of the sequence before it.
pub fn bad_set(form: &SeqForm, player: Player, root: u64, weights: &[u64]) -> Option<u32>
    ensures exact { result ≡ bad_set (player_sets form.now player) root weights.now }
    ensures none { IsNone result ↔ IsPlan (player_sets form.now player) root weights.now }
    ensures some { IfSome result (λ set. IsBadSet (player_sets form.now player) root weights.now set) }
{
    if weights.len() != form.sequence_count(player) as usize || root == 0 || weights[0] != root {
        return Some(0);
    }
    for k in 0..form.set_count(player) {
        if !adds_up(form, player, k + 1, weights) {
            return Some(k + 1);
        }
    }
    None
}

// Whether the numbers of a set's sequences add up to that of the sequence before it.
fn adds_up(form: &SeqForm, player: Player, set: u32, weights: &[u64]) -> bool
    requires from_one { 1 ≤ set }
    requires there { set ≤ length (player_sets form.now player) }
    requires as_many { length weights.now ≡ sequence_count (player_sets form.now player) }
    ensures { (d : PlacedSet) → IsTrue result
        ↔ AddsUp weights.now (slice_index_or (placed (player_sets form.now player)) (set - 1) d) }
{
    let h = form.place_of(player, set);
    let first = h.first as usize;
    let end = first + h.actions as usize;
    let before = weights[h.before as usize];
    total(&weights[first..end]) == before as u128
}

// Numbers of any size have a sum within 128 bits.
fn total(weights: &[u64]) -> u128
    requires { length weights.now < 2 ^ 32 }
    ensures { result ≡ weight_sum weights.now }
{
    let mut sum = 0;
    for weight in weights {
        sum += *weight as u128;
    }
    sum
}
