//! The plan of a play.
ghost use Rattle.std.specs.Prelude.{◌≡◌, ℕ, ◌*◌, ◌+◌, ◌/◌, ◌<◌, ◌≤◌, length, map, slice_get, slice_index, Some};
ghost use Rattle.def_sums.specs.Limits.{most_scale, past_dealt};
ghost use Rattle.def_sums.specs.Sum.{nat_sum_over};
ghost use Rattle.def_plan.specs.Form.{player_sets, sequence_count, sequences_of};
ghost use Rattle.def_plan.specs.Plan.{IsPlan};
ghost use Rattle.def_round.specs.Shares.{shares, weight_sum};
ghost use Rattle.def_round.specs.Play as play;
ghost use Rattle.xg_seq.specs.Table.{most_sequences, placed_of_row};
ghost use Rattle.def_round.specs.Play.{GivesAllUnits, plan_of_play, play_rule};

use crate::plan::Plan;
use crate::play::Play;
use def_tree::Player;
use xg_seq::{SeqForm, SetPlace};

/// Makes the plan that has this root and deals at each set, in order, the number of the sequence before it by the
/// set's play.
pub fn from_play(form: &SeqForm, player: Player, play: &Play, root: u64, into: &mut Plan)
    requires play_there { length play.now ≡ sequence_count (player_sets form.now player) }
    requires plan_there { length into.old ≡ sequence_count (player_sets form.now player) }
    requires all_units { GivesAllUnits play.now (player_sets form.now player) }
    requires from_one { 1 ≤ root }
    requires limit { root ≤ most_scale }
    ensures plan { into.new ≡ plan_of_play (player_sets form.now player) play.now root }
    ensures is_plan { IsPlan (player_sets form.now player) root into.new }
{
    into.weights[0] = root;
    deal_sets(form, player, &play.units, &mut into.weights);
}

// Deals the root at each set in order.
fn deal_sets(form: &SeqForm, player: Player, units: &[u32], weights: &mut [u64])
    requires as_many { length weights.old ≡ sequence_count (player_sets form.now player) }
    requires play_there { length units.now ≡ sequence_count (player_sets form.now player) }
    requires all_units { GivesAllUnits units.now (player_sets form.now player) }
    requires from_one { 1 ≤ slice_index weights.old 0 }
    requires limit { slice_index weights.old 0 ≤ most_scale }
    ensures plan { weights.new ≡ plan_of_play (player_sets form.now player) units.now (slice_index weights.old 0) }
    ensures is_plan { IsPlan (player_sets form.now player) (slice_index weights.old 0) weights.new }
{
    form.facts();
    let places = form.places(player);
    for k in 0..places.len() {
        let place = place_at(places, k);
        deal_set(place, units, weights);
    }
}

// The place of a set, counted from 0.
fn place_at(places: &[SetPlace], k: usize) -> SetPlace
    requires { k < length places.now }
    ensures { slice_get (map placed_of_row places.now) k ≡ Some (placed_of_row result) }
{
    places[k]
}

// Deals the number of the sequence before a set.
fn deal_set(place: SetPlace, units: &[u32], weights: &mut [u64])
    requires inside { place.first + place.actions ≤ length weights.old }
    requires earlier { place.before < place.first }
    requires as_many { length units.now ≡ length weights.old }
    requires limit { length weights.old ≤ most_sequences }
    requires all_units { nat_sum_over (λ s. slice_index units.now s) (sequences_of (placed_of_row place)) ≡ play.units }
    requires small { slice_index weights.old place.before < past_dealt }
    ensures count { length weights.new ≡ length weights.old }
    ensures earlier { (s : ℕ) → s < place.first → slice_index weights.new s ≡ slice_index weights.old s }
    ensures dealt { map (λ s. slice_index weights.new s) (sequences_of (placed_of_row place))
        ≡ play_rule units.now (placed_of_row place) (slice_index weights.old place.before) }
{
    let first = place.first as usize;
    let end = first + place.actions as usize;
    let n = weights[place.before as usize];
    deal_by_play(n, &units[first..end], &mut weights[first..end]);
}

// Deals n by a play whose units add up to 65,536.
fn deal_by_play(n: u64, units: &[u32], out: &mut [u64])
    requires as_many { length out.old ≡ length units.now }
    requires whole { weight_sum units.now ≡ play.units }
    requires small { n < past_dealt }
    ensures { out.new ≡ shares n units.now }
{
    // Most sets have two actions, so it is asked for these first.
    if out.len() == 2 {
        deal_to_two(n, units, out);
    } else if out.len() < 2 {
        out[0] = n;
    } else {
        deal_to_many(n, units, out);
    }
}

fn deal_to_two(n: u64, units: &[u32], out: &mut [u64])
    requires as_many { length out.old ≡ length units.now }
    requires two { length units.now ≡ 2 }
    requires whole { weight_sum units.now ≡ play.units }
    requires small { n < past_dealt }
    ensures { out.new ≡ shares n units.now }
{
    let first = part(n, units[0] as u64);
    out[0] = first;
    out[1] = n - first;
}

fn deal_to_many(n: u64, units: &[u32], out: &mut [u64])
    requires as_many { length out.old ≡ length units.now }
    requires whole { weight_sum units.now ≡ play.units }
    requires small { n < past_dealt }
    ensures { out.new ≡ shares n units.now }
{
    let mut units_upto = 0;
    let mut before = 0;
    for i in 0..units.len() {
        units_upto += units[i] as u64;
        let upto = part(n, units_upto);
        out[i] = upto - before;
        before = upto;
    }
}

fn part(n: u64, units: u64) -> u64
    requires small { n < past_dealt }
    requires part { units ≤ play.units }
    ensures { result ≡ n * units / play.units }
{
    (n * units) >> 16
}
