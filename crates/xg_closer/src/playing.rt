//! The play of the regrets, by regret matching.
ghost use Rattle.std.specs.Prelude.{◌≡◌, ℕ, ◌+◌, ◌*◌, ◌/◌, ◌<◌, ◌≤◌, unsigned_abs, length, map};
ghost use Rattle.def_sums.specs.Limits.{most_row, past_product};
ghost use Rattle.def_plan.specs.Form.{player_sets, sequence_count};
ghost use Rattle.def_round.specs.Play.{GivesAllUnits, play_of, positive_part, regret_of, regret_sum, set_play, units};
ghost use Rattle.def_tree.specs.Rules.{most_actions};
ghost use Rattle.xg_closer.specs.Playing.{PlaysSet};
ghost use Rattle.xg_seq.specs.Table.{most_sequences, placed_of_row};

use crate::closing::place_at;
use crate::dividing::{inverse_of, units_of};
use crate::regrets::Regrets;
use crate::worths::{Worth, worth_at};
use def_round::UNITS;
use def_tree::Player;
use xg_plan::Play;
use xg_seq::{SeqForm, SetPlace};

/// Makes the play of the regrets as they stand, by regret matching (Zinkevich, Johanson, Bowling and Piccione 2007).
///
/// The 65,536 units of each set go to its actions in proportion to their positive regrets, and to all alike where no
/// regret is positive.
pub fn play_into(form: &SeqForm, player: Player, regrets: &Regrets, play: &mut Play)
    requires as_regrets { length regrets.now.of_sequences ≡ sequence_count (player_sets form.now player) }
    requires as_play { length play.old ≡ sequence_count (player_sets form.now player) }
    ensures by_regrets { play.new ≡ play_of (player_sets form.now player) regrets.now.of_sequences }
    ensures all_units { GivesAllUnits play.new (player_sets form.now player) }
    ensures count { length play.new ≡ length play.old }
{
    match regrets.most_small {
        Some(_) => play_sets(form, player, &regrets.small_regrets, play),
        None => play_sets(form, player, &regrets.regrets, play),
    }
}

fn play_sets<R: Worth>(form: &SeqForm, player: Player, regrets: &[R], play: &mut Play)
    requires as_regrets { length regrets.now ≡ sequence_count (player_sets form.now player) }
    requires as_play { length play.old ≡ sequence_count (player_sets form.now player) }
    requires small { (s : ℕ) → unsigned_abs (regret_of (map R.amount regrets.now) s) ≤ most_row }
    ensures by_regrets { play.new ≡ play_of (player_sets form.now player) (map R.amount regrets.now) }
    ensures all_units { GivesAllUnits play.new (player_sets form.now player) }
    ensures count { length play.new ≡ length play.old }
{
    form.facts();
    play.gives_none_to_empty();
    let places = form.places(player);
    for set in 0..places.len() {
        let place = place_at(places, set);
        play_set(place, regrets, play);
    }
}

fn play_set<R: Worth>(place: SetPlace, regrets: &[R], play: &mut Play)
    requires from_one { 1 ≤ place.first }
    requires some { 1 ≤ place.actions }
    requires few { place.actions ≤ most_actions }
    requires inside { place.first + place.actions ≤ length regrets.now }
    requires as_many { length play.old ≡ length regrets.now }
    requires limit { length regrets.now ≤ most_sequences }
    requires small { units * regret_sum (map R.amount regrets.now) (placed_of_row place) < past_product }
    ensures { PlaysSet (placed_of_row place) (set_play (map R.amount regrets.now) (placed_of_row place)) play.old
        play.new }
{
    // Most sets have two actions, so it is asked for these first.
    if place.actions == 2 {
        play_two(place, regrets, play);
        return;
    }
    if place.actions < 2 {
        play.set(place.first, UNITS);
        return;
    }
    let sum = sum_of_parts(place, regrets);
    if sum == 0 {
        play_evenly(place, regrets, play);
    } else {
        play_by_parts(place, regrets, sum, play);
    }
}

fn sum_of_parts<R: Worth>(place: SetPlace, regrets: &[R]) -> u128
    requires inside { place.first + place.actions ≤ length regrets.now }
    requires limit { length regrets.now ≤ most_sequences }
    requires small { units * regret_sum (map R.amount regrets.now) (placed_of_row place) < past_product }
    ensures { result ≡ regret_sum (map R.amount regrets.now) (placed_of_row place) }
{
    let mut sum = 0u128;
    for i in 0..place.actions {
        sum += part_of(regrets, (place.first + i) as usize);
    }
    sum
}

fn part_of<R: Worth>(regrets: &[R], sequence: usize) -> u128
    requires { sequence < length regrets.now }
    ensures { result ≡ positive_part (regret_of (map R.amount regrets.now) sequence) }
{
    let regret = worth_at(regrets, sequence);
    if regret > 0 { regret as u128 } else { 0 }
}

// Plays a set where some regret is positive.
fn play_by_parts<R: Worth>(place: SetPlace, regrets: &[R], sum: u128, play: &mut Play)
    requires from_one { 1 ≤ place.first }
    requires some_actions { 1 ≤ place.actions }
    requires inside { place.first + place.actions ≤ length regrets.now }
    requires as_many { length play.old ≡ length regrets.now }
    requires limit { length regrets.now ≤ most_sequences }
    requires small { units * sum < past_product }
    requires whole { sum ≡ regret_sum (map R.amount regrets.now) (placed_of_row place) }
    requires some { 1 ≤ sum }
    ensures { PlaysSet (placed_of_row place) (set_play (map R.amount regrets.now) (placed_of_row place)) play.old
        play.new }
{
    let inverse = inverse_of(sum);
    // What is left is the last action's.
    let last = place.actions - 1;
    let mut sum_so_far = 0u128;
    let mut given = 0u32;
    for i in 0..last {
        sum_so_far += part_of(regrets, (place.first + i) as usize);
        let next = units_of(sum_so_far, sum, inverse);
        play.set(place.first + i, next - given);
        given = next;
    }
    play.set(place.first + last, UNITS - given);
}

// Plays a set where no regret is positive.
#[inline(never)]
fn play_evenly<R: Worth>(place: SetPlace, regrets: &[R], play: &mut Play)
    requires from_one { 1 ≤ place.first }
    requires some { 1 ≤ place.actions }
    requires few { place.actions ≤ most_actions }
    requires inside { place.first + place.actions ≤ length regrets.now }
    requires as_many { length play.old ≡ length regrets.now }
    requires limit { length regrets.now ≤ most_sequences }
    requires none { regret_sum (map R.amount regrets.now) (placed_of_row place) ≡ 0 }
    ensures { PlaysSet (placed_of_row place) (set_play (map R.amount regrets.now) (placed_of_row place)) play.old
        play.new }
{
    let mut given = 0u32;
    for i in 0..place.actions {
        let next = UNITS * (i + 1) / place.actions;
        play.set(place.first + i, next - given);
        given = next;
    }
}

fn play_two<R: Worth>(place: SetPlace, regrets: &[R], play: &mut Play)
    requires from_one { 1 ≤ place.first }
    requires two { place.actions ≡ 2 }
    requires inside { place.first + 2 ≤ length regrets.now }
    requires as_many { length play.old ≡ length regrets.now }
    requires limit { length regrets.now ≤ most_sequences }
    requires small { units * regret_sum (map R.amount regrets.now) (placed_of_row place) < past_product }
    ensures { PlaysSet (placed_of_row place) (set_play (map R.amount regrets.now) (placed_of_row place)) play.old
        play.new }
{
    let at = place.first as usize;
    let a = part_of(regrets, at);
    let b = part_of(regrets, at + 1);
    let first = first_of_two(a, b);
    play.set_two(place.first, first, UNITS - first);
}

fn first_of_two(a: u128, b: u128) -> u32
    requires small { units * (a + b) < past_product }
    ensures by_parts { 1 ≤ a + b → result ≡ units * a / (a + b) }
    ensures evenly { a + b ≡ 0 → result ≡ units / 2 }
    ensures within { result ≤ units }
{
    let sum = a + b;
    if sum == 0 {
        UNITS / 2
    } else {
        units_of(a, sum, inverse_of(sum))
    }
}
