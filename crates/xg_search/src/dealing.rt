//! The plan of a play, and that of a weighted sum of plans.
ghost use Rattle.std.specs.Prelude.{◌≡◌, ◌+◌, ◌<◌, ◌≤◌, length};
ghost use Rattle.def_sums.specs.Limits.{most_root};
ghost use Rattle.def_plan.specs.Form.{player_sets, sequence_count};
ghost use Rattle.xg_seq.specs.Table.{most_sequences};

use crate::numbers::{PLAY_BITS, ROOT, UNITS};
use crate::places::place_at;
use crate::weights::Weights;
use def_tree::Player;
use xg_seq::{SeqForm, SetPlace};

/// Deals the root by a play.
pub(crate) fn deal_plan(form: &SeqForm, player: Player, play: &[u32], plan: &mut Weights)
    requires play { length play.now ≡ sequence_count (player_sets form.now player) }
    requires plan { length plan.old ≡ sequence_count (player_sets form.now player) }
    ensures { length plan.new ≡ length plan.old }
{
    form.facts();
    plan.put(0, ROOT);
    let places = form.places(player);
    for set in 0..places.len() {
        let place = place_at(form, player, places, set);
        deal_set(place, play, plan);
    }
}

fn deal_set(place: SetPlace, play: &[u32], plan: &mut Weights)
    requires some { 1 ≤ place.actions }
    requires earlier { place.before < place.first }
    requires inside { place.first + place.actions ≤ length plan.old }
    requires limit { length plan.old ≤ most_sequences }
    requires play { length play.now ≡ length plan.old }
    ensures { length plan.new ≡ length plan.old }
{
    let number = plan.of(place.before as usize);
    let first = place.first as usize;
    if place.actions == 2 {
        let part = part_of(number, play[first]);
        plan.put(first, part);
        plan.put(first + 1, number - part);
    } else {
        let last = first + (place.actions as usize - 1);
        deal_to_many(number, first, last, play, plan);
    }
}

// Deals a number to the sequences from the first to the last one.
fn deal_to_many(number: u64, first: usize, last: usize, play: &[u32], plan: &mut Weights)
    requires small { number ≤ most_root }
    requires inside { last < length plan.old }
    requires play { length play.now ≡ length plan.old }
    ensures { length plan.new ≡ length plan.old }
{
    let mut units = 0u32;
    let mut before = 0u64;
    for s in first..last {
        units = units.saturating_add(play[s]);
        let upto = part_of(number, units).max(before);
        plan.put(s, upto - before);
        before = upto;
    }
    plan.put(last, number - before);
}

// The part of a number that so many units get.
fn part_of(number: u64, units: u32) -> u64
    requires { number ≤ most_root }
    ensures { result ≤ number }
{
    let units = units.min(UNITS) as u64;
    (number * units) >> PLAY_BITS
}

/// Deals the root by a weighted sum of plans.
pub(crate) fn deal_sums(form: &SeqForm, player: Player, sums: &[u128], numbers: &mut [u64])
    requires sums { length sums.now ≡ sequence_count (player_sets form.now player) }
    requires numbers { length numbers.old ≡ sequence_count (player_sets form.now player) }
{
    numbers[0] = ROOT;
    let places = form.places(player);
    for set in 0..places.len() {
        let place = place_at(form, player, places, set);
        let number = numbers[place.before as usize].min(ROOT);
        let first = place.first as usize;
        let end = first + place.actions as usize;
        deal_by_sums(number, &sums[first..end], &mut numbers[first..end]);
    }
}

// Deals a number by sums, and evenly where all are 0.
fn deal_by_sums(number: u64, sums: &[u128], numbers: &mut [u64])
    requires small { number ≤ most_root }
    requires count { length sums.now ≡ length numbers.old }
{
    let total = total_of(sums);
    let count = numbers.len() as u128;
    let mut sum = 0u128;
    let mut before = 0u64;
    for i in 0..numbers.len() {
        sum = sum.wrapping_add(sums[i]);
        let upto = if total == 0 {
            share_of(number, i as u128 + 1, count)
        } else {
            share_of(number, sum, total)
        };
        let upto = upto.max(before);
        numbers[i] = upto - before;
        before = upto;
    }
}

fn total_of(sums: &[u128]) -> u128 {
    let mut total = 0u128;
    for sum in sums {
        total = total.wrapping_add(*sum);
    }
    total
}

// A part's share of a number, rounded down. A part of 90 bits at most leaves room for the product.
fn share_of(number: u64, part: u128, whole: u128) -> u64
    requires { number ≤ most_root }
    ensures { result ≤ number }
{
    let product = (number as u128).wrapping_mul(part);
    (product / whole.max(1)).min(number as u128) as u64
}
