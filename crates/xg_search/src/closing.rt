//! The half of a round in which a player learns.
ghost use Rattle.std.specs.Prelude.{◌≡◌, ◌+◌, ◌<◌, ◌≤◌, length};
ghost use Rattle.def_plan.specs.Form.{player_sets, sequence_count};
ghost use Rattle.xg_seq.specs.Table.{most_sequences};

use crate::numbers::{PLAY_BITS, UNITS, cut, minus, plus};
use crate::places::place_at;
use crate::units::{deal_units, first_of_two};
use def_tree::Player;
use xg_seq::{SeqForm, SetPlace};

/// How regrets are kept from round to round, and what is played by them.
pub(crate) trait Learning: Copy {
    /// What is kept of a regret.
    fn kept(&self, regret: i64) -> i64;

    /// The part by which an action is played, by its regret and what the newest round added to it.
    fn part(&self, regret: i64, newest: i64) -> u64;
}

/// Regrets are discounted by this many parts of 2^30.
#[derive(Clone, Copy)]
pub(crate) struct Discounted {
    pub(crate) factor: u32,
}

impl Learning for Discounted {
    fn kept(&self, regret: i64) -> i64 {
        cut((regret as i128 * self.factor as i128) >> 30)
    }

    fn part(&self, regret: i64, _newest: i64) -> u64 {
        regret.max(0) as u64
    }
}

/// The next round is expected to add half of what the newest one did.
#[derive(Clone, Copy)]
pub(crate) struct HalfPredicted;

impl Learning for HalfPredicted {
    fn kept(&self, regret: i64) -> i64 {
        regret
    }

    fn part(&self, regret: i64, newest: i64) -> u64 {
        plus(regret, newest / 2).max(0) as u64
    }
}

/// Adds the regrets of a half round, where the worths begin with the leaf sums, and plays by them.
pub(crate) fn close_sets<L: Learning>(
    form: &SeqForm,
    player: Player,
    learning: L,
    worths: &mut [i64],
    regrets: &mut [i64],
    parts: &mut [u64],
    play: &mut [u32],
)
    requires worths { length worths.old ≡ sequence_count (player_sets form.now player) }
    requires regrets { length regrets.old ≡ sequence_count (player_sets form.now player) }
    requires parts { length parts.old ≡ sequence_count (player_sets form.now player) }
    requires play { length play.old ≡ sequence_count (player_sets form.now player) }
{
    form.facts();
    let places = form.places(player);
    for set in (0..places.len()).rev() {
        let place = place_at(form, player, places, set);
        let value = close_set(place, learning, worths, regrets, parts, play);
        let before = place.before as usize;
        worths[before] = plus(worths[before], value);
    }
}

fn close_set<L: Learning>(
    place: SetPlace,
    learning: L,
    worths: &[i64],
    regrets: &mut [i64],
    parts: &mut [u64],
    play: &mut [u32],
) -> i64
    requires some { 1 ≤ place.actions }
    requires inside { place.first + place.actions ≤ length worths.now }
    requires limit { length worths.now ≤ most_sequences }
    requires regrets { length regrets.old ≡ length worths.now }
    requires parts { length parts.old ≡ length worths.now }
    requires play { length play.old ≡ length worths.now }
{
    let first = place.first as usize;
    if place.actions == 2 {
        return close_two(first, learning, worths, regrets, play);
    }
    let end = first + place.actions as usize;
    close_many(
        learning,
        &worths[first..end],
        &mut regrets[first..end],
        &mut parts[first..end],
        &mut play[first..end],
    )
}

fn close_two<L: Learning>(
    first: usize,
    learning: L,
    worths: &[i64],
    regrets: &mut [i64],
    play: &mut [u32],
) -> i64
    requires inside { first + 1 < length worths.now }
    requires limit { length worths.now ≤ most_sequences }
    requires regrets { length regrets.old ≡ length worths.now }
    requires play { length play.old ≡ length worths.now }
{
    let a = worths[first];
    let b = worths[first + 1];
    let value = plus(b, cut(product(minus(a, b), play[first]) >> PLAY_BITS));
    let part_a = learn(first, minus(a, value), learning, regrets);
    let part_b = learn(first + 1, minus(b, value), learning, regrets);
    if (regrets[first] | regrets[first + 1]) >> 61 != 0 {
        regrets[first] = regrets[first] >> 1;
        regrets[first + 1] = regrets[first + 1] >> 1;
    }
    let units = first_of_two(part_a, part_b);
    play[first] = units;
    play[first + 1] = UNITS - units;
    value
}

// Adds what the newest round brings to a regret, which is never below 0; the part to play by is the answer.
fn learn<L: Learning>(s: usize, newest: i64, learning: L, regrets: &mut [i64]) -> u64
    requires { s < length regrets.old }
{
    let regret = plus(learning.kept(regrets[s]), newest).max(0);
    regrets[s] = regret;
    learning.part(regret, newest)
}

fn close_many<L: Learning>(
    learning: L,
    worths: &[i64],
    regrets: &mut [i64],
    parts: &mut [u64],
    play: &mut [u32],
) -> i64
    requires some { 1 ≤ length worths.now }
    requires limit { length worths.now ≤ most_sequences }
    requires regrets { length regrets.old ≡ length worths.now }
    requires parts { length parts.old ≡ length worths.now }
    requires play { length play.old ≡ length worths.now }
{
    let value = value_of(worths, play);
    let total = learn_all(learning, worths, value, regrets, parts);
    deal_units(parts, total, play);
    value
}

fn value_of(worths: &[i64], play: &[u32]) -> i64
    requires { length play.now ≡ length worths.now }
{
    let mut sum = 0i128;
    for i in 0..worths.len() {
        sum = sum.wrapping_add(product(worths[i], play[i]));
    }
    cut(sum >> PLAY_BITS)
}

fn product(worth: i64, units: u32) -> i128 {
    worth as i128 * units as i128
}

fn learn_all<L: Learning>(
    learning: L,
    worths: &[i64],
    value: i64,
    regrets: &mut [i64],
    parts: &mut [u64],
) -> u128
    requires regrets { length regrets.old ≡ length worths.now }
    requires parts { length parts.old ≡ length worths.now }
{
    let mut total = 0u128;
    let mut bits = 0i64;
    for i in 0..worths.len() {
        let part = learn(i, minus(worths[i], value), learning, regrets);
        parts[i] = part;
        total = total.wrapping_add(part as u128);
        bits |= regrets[i];
    }
    if bits >> 61 != 0 {
        halve(regrets);
    }
    total
}

fn halve(regrets: &mut [i64]) {
    for s in 0..regrets.len() {
        regrets[s] = regrets[s] >> 1;
    }
}
