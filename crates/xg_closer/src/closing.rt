//! The close of a round: the regrets that it adds.
ghost use Rattle.std.specs.Prelude.{◌≡◌, ℕ, ◌+◌, ◌*◌, ◌^◌, ◌<◌, ◌≤◌, ℤ, pos, ◌+ℤ◌, ◌-ℤ◌, ◌*ℤ◌, unsigned_abs};
ghost use Rattle.std.specs.Prelude.{length, map, slice_get, slice_index, FitsSigned, IfSome, IsNone, Some};
ghost use Rattle.std.specs.Int.{int_wrap};
ghost use Rattle.def_plan.specs.Form.{player_sets, sequence_count, sequences_of};
ghost use Rattle.def_round.specs.Play.{GivesAllUnits, regret_of, units};
ghost use Rattle.def_round.specs.Round.{IsRound, regrets_after, utility};
ghost use Rattle.def_round.specs.Sizes.{size_of_sums};
ghost use Rattle.def_sums.specs.Floor.{floor_div};
ghost use Rattle.def_sums.specs.Limits.{most_rounds, most_round_row, most_small_rows, past_product};
ghost use Rattle.def_sums.specs.Sum.{nat_sum_over};
ghost use Rattle.xg_closer.specs.Closing.{value_by, weighed_sizes, weighed_sum};
ghost use Rattle.xg_closer.specs.Laws.{LeafSumsCloseTheRound};
ghost use Rattle.xg_closer.specs.Regrets.{AreWithin, IsMostAfter, kept_regrets};
ghost use Rattle.xg_closer.specs.Rows.{AreTaken, own_amount};
ghost use Rattle.xg_seq.specs.Table.{most_sequences, placed_of_row};
ghost use Rattle.def_plan.specs.FormRows.{amount_of};

use crate::regrets::Regrets;
use crate::worths::{Worth, add_worth, worth_at};
use def_sums::MOST_SMALL_ROWS;
use def_tree::Player;
use xg_plan::Play;
use xg_seq::{SeqForm, SetPlace};

/// Adds a round's regrets: for each sequence what it is worth more than its set is by the play, where the value of a
/// set is rounded down (Zinkevich, Johanson, Bowling and Piccione 2007, in whole numbers).
///
/// The rows are the leaf sums of the player's sequences against the other player's plan of this round, in player one's
/// payoff for both players.
pub fn close_round(
    form: &SeqForm,
    player: Player,
    regrets: &mut Regrets,
    play: &Play,
    rows: &[i128],
)
    requires few_rounds { regrets.old.closed < most_rounds }
    requires small_rows { nat_sum_over unsigned_abs rows.now ≤ most_round_row }
    requires all_units { GivesAllUnits play.now (player_sets form.now player) }
    requires as_regrets { length regrets.old.of_sequences ≡ sequence_count (player_sets form.now player) }
    requires as_play { length play.now ≡ sequence_count (player_sets form.now player) }
    requires as_rows { length rows.now ≡ sequence_count (player_sets form.now player) }
    ensures regrets { regrets.new.of_sequences
        ≡ regrets_after (own_amount player rows.now) play.now (player_sets form.now player) regrets.old.of_sequences }
    ensures equations { let sets = player_sets form.now player in
        IsRound (own_amount player rows.now) play.now sets regrets.old.of_sequences regrets.new.of_sequences }
    ensures rounds { regrets.new.closed ≡ regrets.old.closed + 1 }
    ensures count { length regrets.new.of_sequences ≡ length regrets.old.of_sequences }
{
    close_by_rows(form, player, regrets, play, rows);
}

/// Adds a round's regrets as `close_round` does, by rows of 64 bits.
pub fn close_small_round(
    form: &SeqForm,
    player: Player,
    regrets: &mut Regrets,
    play: &Play,
    rows: &[i64],
)
    requires few_rounds { regrets.old.closed < most_rounds }
    requires small_rows { nat_sum_over unsigned_abs rows.now ≤ most_round_row }
    requires all_units { GivesAllUnits play.now (player_sets form.now player) }
    requires as_regrets { length regrets.old.of_sequences ≡ sequence_count (player_sets form.now player) }
    requires as_play { length play.now ≡ sequence_count (player_sets form.now player) }
    requires as_rows { length rows.now ≡ sequence_count (player_sets form.now player) }
    ensures regrets { regrets.new.of_sequences
        ≡ regrets_after (own_amount player rows.now) play.now (player_sets form.now player) regrets.old.of_sequences }
    ensures equations { let sets = player_sets form.now player in
        IsRound (own_amount player rows.now) play.now sets regrets.old.of_sequences regrets.new.of_sequences }
    ensures rounds { regrets.new.closed ≡ regrets.old.closed + 1 }
    ensures count { length regrets.new.of_sequences ≡ length regrets.old.of_sequences }
{
    close_by_rows(form, player, regrets, play, rows);
}

/// Rows that are the leaf sums against a plan close the round by the player's own sums against that plan.
pub fn leaf_sums_close_the_round()
    ensures { LeafSumsCloseTheRound }
{}

// The same with rows of either width.
fn close_by_rows<A: Worth>(
    form: &SeqForm,
    player: Player,
    regrets: &mut Regrets,
    play: &Play,
    rows: &[A],
)
    requires few_rounds { regrets.old.closed < most_rounds }
    requires small_rows { nat_sum_over unsigned_abs (map A.amount rows.now) ≤ most_round_row }
    requires all_units { GivesAllUnits play.now (player_sets form.now player) }
    requires as_regrets { length regrets.old.of_sequences ≡ sequence_count (player_sets form.now player) }
    requires as_play { length play.now ≡ sequence_count (player_sets form.now player) }
    requires as_rows { length rows.now ≡ sequence_count (player_sets form.now player) }
    ensures regrets { regrets.new.of_sequences
        ≡ regrets_after (own_amount player (map A.amount rows.now)) play.now (player_sets form.now player)
        regrets.old.of_sequences }
    ensures equations { let sets = player_sets form.now player in
        IsRound (own_amount player (map A.amount rows.now)) play.now sets regrets.old.of_sequences
        regrets.new.of_sequences }
    ensures rounds { regrets.new.closed ≡ regrets.old.closed + 1 }
    ensures count { length regrets.new.of_sequences ≡ length regrets.old.of_sequences }
{
    form.facts();
    let most = close_rows(
        form,
        player,
        play.units(),
        rows,
        regrets.most_small,
        &mut regrets.small_worths,
        &mut regrets.worths,
        &mut regrets.small_regrets,
        &mut regrets.regrets,
    );
    regrets.most_small = most;
    regrets.rounds += 1;
}

// Adds a round's regrets, with worths and regrets of 64 bits where there is room for them in a word. The answer is the
// greatest size that a small regret can have now, if the regrets are small ones.
fn close_rows<A: Worth>(
    form: &SeqForm,
    player: Player,
    play: &[u32],
    rows: &[A],
    most: Option<u64>,
    small_worths: &mut [i64],
    worths: &mut [i128],
    small_regrets: &mut [i64],
    regrets: &mut [i128],
) -> Option<u64>
    requires small_rows { nat_sum_over unsigned_abs (map A.amount rows.now) ≤ most_round_row }
    requires as_rows { length rows.now ≡ sequence_count (player_sets form.now player) }
    requires as_small_worths { length small_worths.old ≡ sequence_count (player_sets form.now player) }
    requires as_worths { length worths.old ≡ sequence_count (player_sets form.now player) }
    requires as_small_regrets { length small_regrets.old ≡ sequence_count (player_sets form.now player) }
    requires as_regrets { length regrets.old ≡ sequence_count (player_sets form.now player) }
    requires as_play { length play.now ≡ sequence_count (player_sets form.now player) }
    requires all_units { GivesAllUnits play.now (player_sets form.now player) }
    requires room { (s : ℕ)
        → unsigned_abs (regret_of (kept_regrets most small_regrets.old regrets.old) s) < past_product }
    requires none_of_empty { regret_of (kept_regrets most small_regrets.old regrets.old) 0 ≡ pos 0 }
    requires small { AreWithin most small_regrets.old }
    ensures small_worths_count { length small_worths.new ≡ length small_worths.old }
    ensures worths_count { length worths.new ≡ length worths.old }
    ensures small_count { length small_regrets.new ≡ length small_regrets.old }
    ensures count { length regrets.new ≡ length regrets.old }
    ensures small { AreWithin result small_regrets.new }
    ensures stay_small { let sizes = nat_sum_over unsigned_abs (map A.amount rows.now) in
        (before : ℕ) → most ≡ Some before → before + sizes ≤ most_small_rows → result ≡ Some (before + sizes) }
    ensures regrets { kept_regrets result small_regrets.new regrets.new
        ≡ regrets_after (own_amount player (map A.amount rows.now)) play.now (player_sets form.now player)
        (kept_regrets most small_regrets.old regrets.old) }
{
    form.facts();
    let sizes = take_small_rows(player, rows, small_worths);
    let more = most_after(most, sizes);
    match more {
        Some(_) => close_sets(form, player, play, small_worths, small_regrets),
        None => {
            widen(most, small_regrets, regrets);
            close_wide(
                form,
                player,
                play,
                rows,
                sizes,
                small_worths,
                worths,
                regrets,
            );
        }
    }
    more
}

// The greatest size of a small regret after a round whose rows have these sizes together, where both have room in a
// word and stay so.
fn most_after(most: Option<u64>, sizes: Option<u64>) -> Option<u64>
    ensures within { IfSome result (IsMostAfter most sizes) }
    ensures all { (more : ℕ) → IsMostAfter most sizes more → result ≡ Some more }
{
    let more = most?.checked_add(sizes?)?;
    if more <= MOST_SMALL_ROWS {
        Some(more)
    } else {
        None
    }
}

// Copies small regrets to those of all bits, where they are kept as small ones.
fn widen(most: Option<u64>, small_regrets: &[i64], regrets: &mut [i128])
    requires { length small_regrets.now ≡ length regrets.old }
    ensures { regrets.new ≡ kept_regrets most small_regrets.now regrets.old }
{
    match most {
        Some(_) => copy_wide(small_regrets, regrets),
        None => {}
    }
}

fn copy_wide(small_regrets: &[i64], regrets: &mut [i128])
    requires { length small_regrets.now ≡ length regrets.old }
    ensures { regrets.new ≡ small_regrets.now }
{
    for s in 0..regrets.len() {
        regrets[s] = small_regrets[s] as i128;
    }
}

// Adds a round's regrets of all bits, with worths of 64 bits where the rows were taken into these.
fn close_wide<A: Worth>(
    form: &SeqForm,
    player: Player,
    play: &[u32],
    rows: &[A],
    sizes: Option<u64>,
    small_worths: &mut [i64],
    worths: &mut [i128],
    regrets: &mut [i128],
)
    requires small_rows { nat_sum_over unsigned_abs (map A.amount rows.now) ≤ most_round_row }
    requires as_rows { length rows.now ≡ sequence_count (player_sets form.now player) }
    requires as_small_worths { length small_worths.old ≡ sequence_count (player_sets form.now player) }
    requires as_worths { length worths.old ≡ sequence_count (player_sets form.now player) }
    requires as_regrets { length regrets.old ≡ sequence_count (player_sets form.now player) }
    requires as_play { length play.now ≡ sequence_count (player_sets form.now player) }
    requires all_units { GivesAllUnits play.now (player_sets form.now player) }
    requires taken { IfSome sizes (AreTaken player (map A.amount rows.now) small_worths.old) }
    requires room { (s : ℕ) → unsigned_abs (regret_of regrets.old s) < past_product }
    requires none_of_empty { regret_of regrets.old 0 ≡ pos 0 }
    ensures small_worths_count { length small_worths.new ≡ length small_worths.old }
    ensures worths_count { length worths.new ≡ length worths.old }
    ensures count { length regrets.new ≡ length regrets.old }
    ensures regrets { regrets.new
        ≡ regrets_after (own_amount player (map A.amount rows.now)) play.now (player_sets form.now player) regrets.old }
{
    match sizes {
        Some(_) => close_sets(form, player, play, small_worths, regrets),
        None => {
            take_rows(player, rows, worths);
            close_sets(form, player, play, worths, regrets);
        }
    }
}

// Takes the rows as they are to the player, if all of them together have room in 64 bits. Their sizes together are the
// answer.
fn take_small_rows<A: Worth>(player: Player, rows: &[A], worths: &mut [i64]) -> Option<u64>
    requires as_many { length rows.now ≡ length worths.old }
    ensures count { length worths.new ≡ length worths.old }
    ensures taken { IfSome result (AreTaken player (map A.amount rows.now) worths.new) }
    ensures sizes { let sizes = nat_sum_over unsigned_abs (map A.amount rows.now) in
        sizes ≤ most_small_rows → result ≡ Some sizes }
{
    let mut room = MOST_SMALL_ROWS;
    for i in 0..rows.len() {
        let Some(row) = small_row(worth_at(rows, i), room) else {
            return None;
        };
        room -= row.unsigned_abs();
        worths[i] = own_row(player, row);
    }
    Some(MOST_SMALL_ROWS - room)
}

// The row, if its size is no greater than the room.
fn small_row(row: i128, room: u64) -> Option<i64>
    ensures within { IfSome result (λ small. (small ≡ row) × (unsigned_abs row ≤ room)) }
    ensures none { IsNone result → room ≤ most_small_rows → room < unsigned_abs row }
{
    let small = i64::try_from(row).ok()?;
    if small.unsigned_abs() <= room {
        Some(small)
    } else {
        None
    }
}

fn own_row(player: Player, row: i64) -> i64
    requires { unsigned_abs row ≤ most_small_rows }
    ensures { result ≡ utility player row }
{
    match player {
        Player::One => row,
        Player::Two => -row,
    }
}

// Takes the rows as they are to the player.
fn take_rows<A: Worth>(player: Player, rows: &[A], worths: &mut [i128])
    requires as_many { length rows.now ≡ length worths.old }
    requires small { nat_sum_over unsigned_abs (map A.amount rows.now) ≤ most_round_row }
    ensures count { length worths.new ≡ length worths.old }
    ensures each { (s : ℕ) → amount_of worths.new s ≡ own_amount player (map A.amount rows.now) s }
{
    for i in 0..rows.len() {
        worths[i] = own_wide_row(player, worth_at(rows, i));
    }
}

fn own_wide_row(player: Player, amount: i128) -> i128
    requires { unsigned_abs amount < 2 ^ 127 }
    ensures { result ≡ utility player amount }
{
    match player {
        Player::One => amount,
        Player::Two => -amount,
    }
}

// Adds a round's regrets, where the worths begin with what the leaves give each sequence.
fn close_sets<W: Worth, R: Worth>(
    form: &SeqForm,
    player: Player,
    play: &[u32],
    worths: &mut [W],
    regrets: &mut [R],
)
    requires as_worths { length worths.old ≡ sequence_count (player_sets form.now player) }
    requires as_regrets { length regrets.old ≡ sequence_count (player_sets form.now player) }
    requires as_play { length play.now ≡ sequence_count (player_sets form.now player) }
    requires all_units { GivesAllUnits play.now (player_sets form.now player) }
    requires small { size_of_sums (amount_of (map W.amount worths.old)) (player_sets form.now player) ≤ most_round_row }
    requires fits { (v : ℤ) → unsigned_abs v
        ≤ size_of_sums (amount_of (map W.amount worths.old)) (player_sets form.now player) → FitsSigned W.width v }
    requires growth { (v : ℤ) → unsigned_abs v
        ≤ size_of_sums (amount_of (map W.amount worths.old)) (player_sets form.now player) → FitsSigned R.width v }
    requires room { (s : ℕ) (v : ℤ) → unsigned_abs v
        ≤ size_of_sums (amount_of (map W.amount worths.old)) (player_sets form.now player)
        → FitsSigned R.width (regret_of (map R.amount regrets.old) s +ℤ v) }
    requires none_of_empty { regret_of (map R.amount regrets.old) 0 ≡ pos 0 }
    ensures worths_count { length worths.new ≡ length worths.old }
    ensures count { length regrets.new ≡ length regrets.old }
    ensures regrets { map R.amount regrets.new
        ≡ regrets_after (amount_of (map W.amount worths.old)) play.now (player_sets form.now player)
        (map R.amount regrets.old) }
{
    form.facts();
    let places = form.places(player);
    for set in (0..places.len()).rev() {
        let place = place_at(places, set);
        close_set(place, play, worths, regrets);
    }
}

// Adds the regrets of one set, whose sequences' worths are complete, and its value to the sequence before it.
fn close_set<W: Worth, R: Worth>(place: SetPlace, play: &[u32], worths: &mut [W], regrets: &mut [R])
    requires from_one { 1 ≤ place.first }
    requires inside { place.first + place.actions ≤ length worths.old }
    requires earlier { place.before < place.first }
    requires as_play { length play.now ≡ length worths.old }
    requires limit { length worths.old ≤ most_sequences }
    requires as_regrets { length regrets.old ≡ length worths.old }
    requires all_units { nat_sum_over (λ s. slice_index play.now s) (sequences_of (placed_of_row place)) ≡ units }
    requires products { weighed_sizes play.now (map W.amount worths.old) (placed_of_row place) < past_product }
    requires fits { FitsSigned W.width (value_by play.now (map W.amount worths.old) (placed_of_row place)) }
    requires growth { (s : ℕ) → place.first ≤ s → s < place.first + place.actions
        → unsigned_abs (amount_of (map W.amount worths.old) s
        -ℤ value_by play.now (map W.amount worths.old) (placed_of_row place)) < past_product }
    requires growth_fits { (s : ℕ) → place.first ≤ s → s < place.first + place.actions
        → FitsSigned R.width (amount_of (map W.amount worths.old) s
        -ℤ value_by play.now (map W.amount worths.old) (placed_of_row place)) }
    requires room { (s : ℕ) → place.first ≤ s → s < place.first + place.actions
        → FitsSigned R.width (regret_of (map R.amount regrets.old) s +ℤ (amount_of (map W.amount worths.old) s
        -ℤ value_by play.now (map W.amount worths.old) (placed_of_row place))) }
    ensures worths_count { length worths.new ≡ length worths.old }
    ensures worth_before { amount_of (map W.amount worths.new) place.before
        ≡ int_wrap W.width (amount_of (map W.amount worths.old) place.before
        +ℤ value_by play.now (map W.amount worths.old) (placed_of_row place)) }
    ensures other_worths { (s : ℕ) → (s ≡ place.before → ⊥)
        → amount_of (map W.amount worths.new) s ≡ amount_of (map W.amount worths.old) s }
    ensures regrets_count { length regrets.new ≡ length regrets.old }
    ensures of_set { (s : ℕ) → place.first ≤ s → s < place.first + place.actions
        → regret_of (map R.amount regrets.new) s
        ≡ regret_of (map R.amount regrets.old) s +ℤ (amount_of (map W.amount worths.old) s
        -ℤ value_by play.now (map W.amount worths.old) (placed_of_row place)) }
    ensures before_set { (s : ℕ) → s < place.first → regret_of (map R.amount regrets.new) s
        ≡ regret_of (map R.amount regrets.old) s }
    ensures after_set { (s : ℕ) → place.first + place.actions ≤ s
        → regret_of (map R.amount regrets.new) s ≡ regret_of (map R.amount regrets.old) s }
{
    if place.actions == 1 {
        // All units are the one action's, so the set has its worth.
        let worth = worth_at(worths, place.first as usize);
        add_worth(worths, place.before as usize, worth);
        return;
    }
    let value = value_of_set(place, play, worths);
    add_regrets(place, worths, value, regrets);
    add_worth(worths, place.before as usize, value);
}

fn value_of_set<W: Worth>(place: SetPlace, play: &[u32], worths: &[W]) -> i128
    requires from_one { 1 ≤ place.first }
    requires inside { place.first + place.actions ≤ length worths.now }
    requires as_play { length play.now ≡ length worths.now }
    requires limit { length worths.now ≤ most_sequences }
    requires products { weighed_sizes play.now (map W.amount worths.now) (placed_of_row place) < past_product }
    ensures { result ≡ value_by play.now (map W.amount worths.now) (placed_of_row place) }
{
    if place.actions == 2 {
        return floor_by_units(sum_of_two(place, play, worths));
    }
    let mut sum = 0i128;
    for i in 0..place.actions {
        let s = place.first + i;
        sum = plus(sum, product(play[s as usize], worth_at(worths, s as usize)));
    }
    floor_by_units(sum)
}

fn sum_of_two<W: Worth>(place: SetPlace, play: &[u32], worths: &[W]) -> i128
    requires from_one { 1 ≤ place.first }
    requires two { place.actions ≡ 2 }
    requires inside { place.first + 2 ≤ length worths.now }
    requires as_play { length play.now ≡ length worths.now }
    requires limit { length worths.now ≤ most_sequences }
    requires products { weighed_sizes play.now (map W.amount worths.now) (placed_of_row place) < past_product }
    ensures { result ≡ weighed_sum play.now (map W.amount worths.now) (placed_of_row place) }
{
    let first = place.first;
    let a = product(play[first as usize], worth_at(worths, first as usize));
    let b = product(
        play[first as usize + 1],
        worth_at(worths, first as usize + 1),
    );
    plus(a, b)
}

// Adds to each regret of a set what its sequence is worth more than the set.
fn add_regrets<W: Worth, R: Worth>(place: SetPlace, worths: &[W], value: i128, regrets: &mut [R])
    requires inside { place.first + place.actions ≤ length worths.now }
    requires as_many { length regrets.old ≡ length worths.now }
    requires growth { (s : ℕ) → place.first ≤ s → s < place.first + place.actions
        → unsigned_abs (amount_of (map W.amount worths.now) s -ℤ value) < past_product }
    requires growth_fits { (s : ℕ) → place.first ≤ s → s < place.first + place.actions
        → FitsSigned R.width (amount_of (map W.amount worths.now) s -ℤ value) }
    requires room { (s : ℕ) → place.first ≤ s → s < place.first + place.actions → FitsSigned R.width
        (regret_of (map R.amount regrets.old) s +ℤ (amount_of (map W.amount worths.now) s -ℤ value)) }
    ensures count { length regrets.new ≡ length regrets.old }
    ensures of_set { (s : ℕ) → place.first ≤ s → s < place.first + place.actions
        → regret_of (map R.amount regrets.new) s ≡ regret_of (map R.amount regrets.old) s
        +ℤ (amount_of (map W.amount worths.now) s -ℤ value) }
    ensures before_set { (s : ℕ) → s < place.first → regret_of (map R.amount regrets.new) s
        ≡ regret_of (map R.amount regrets.old) s }
    ensures after_set { (s : ℕ) → place.first + place.actions ≤ s
        → regret_of (map R.amount regrets.new) s ≡ regret_of (map R.amount regrets.old) s }
{
    if place.actions == 2 {
        add_regret(worths, value, place.first as usize, regrets);
        add_regret(worths, value, place.first as usize + 1, regrets);
        return;
    }
    for i in 0..place.actions as usize {
        add_regret(worths, value, place.first as usize + i, regrets);
    }
}

fn add_regret<W: Worth, R: Worth>(worths: &[W], value: i128, s: usize, regrets: &mut [R])
    requires inside { s < length worths.now }
    requires as_many { length regrets.old ≡ length worths.now }
    requires growth { unsigned_abs (amount_of (map W.amount worths.now) s -ℤ value) < past_product }
    requires growth_fits { FitsSigned R.width (amount_of (map W.amount worths.now) s -ℤ value) }
    requires room { FitsSigned R.width
        (regret_of (map R.amount regrets.old) s +ℤ (amount_of (map W.amount worths.now) s -ℤ value)) }
    ensures count { length regrets.new ≡ length regrets.old }
    ensures here { regret_of (map R.amount regrets.new) s
        ≡ regret_of (map R.amount regrets.old) s +ℤ (amount_of (map W.amount worths.now) s -ℤ value) }
    ensures others { (t : ℕ) → (t ≡ s → ⊥) → regret_of (map R.amount regrets.new) t
        ≡ regret_of (map R.amount regrets.old) t }
{
    add_worth(regrets, s, minus(worth_at(worths, s), value));
}

/// The place of a set, counted from 0.
pub(crate) fn place_at(places: &[SetPlace], set: usize) -> SetPlace
    requires { set < length places.now }
    ensures { slice_get (map placed_of_row places.now) set ≡ Some (placed_of_row result) }
{
    places[set]
}

fn product(units: u32, worth: i128) -> i128
    requires { unsigned_abs (pos units *ℤ worth) < past_product }
    ensures { result ≡ pos units *ℤ worth }
{
    units as i128 * worth
}

fn plus(a: i128, b: i128) -> i128
    requires { unsigned_abs (a +ℤ b) < 2 ^ 127 }
    ensures { result ≡ a +ℤ b }
{
    a + b
}

fn minus(a: i128, b: i128) -> i128
    requires { unsigned_abs (a -ℤ b) < past_product }
    ensures { result ≡ a -ℤ b }
{
    a - b
}

fn floor_by_units(n: i128) -> i128
    ensures { result ≡ floor_div n units }
{
    n >> 16
}
