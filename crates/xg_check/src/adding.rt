//! The worths of sequences: leaf sums, and the printed values of the sets directly after.
ghost use Rattle.std.specs.Prelude.{◌≡◌, ℕ, ◌+◌, ◌-◌, ◌*◌, ◌^◌, ◌<◌, ◌≤◌, pos, ◌+ℤ◌, ◌*ℤ◌, All};
ghost use Rattle.std.specs.Prelude.{drop, length, slice_index, unsigned_abs};
ghost use Rattle.def_sums.specs.Limits.{most_root};
ghost use Rattle.def_tree.specs.Opponent.{opponent};
ghost use Rattle.def_plan.specs.Form.{AreInOrder, leaf_sequence, placed, player_sets, sequence_count};
ghost use Rattle.def_plan.specs.Payoff.{leaf_sum, values_after};
ghost use Rattle.def_plan.specs.Threads.{paid_at_leaf, sequence_of_leaf};
ghost use Rattle.def_cert_verdict.specs.Ranges.{most_printed};
ghost use Rattle.xg_seq.specs.Leaves.{leaf_of};
ghost use Rattle.xg_seq.specs.Table.{most_sequences};
ghost use Rattle.xg_check.specs.ThreadSums.{HasSumsFrom, IsNumberWithin, sum_on};
ghost use Rattle.xg_check.specs.Views.{AddsAt, AreAllWithin, row};

use def_tree::Player;
use xg_seq::{Leaf, SeqForm};

fn plus(a: i128, b: i128) -> i128
    requires { unsigned_abs (a +ℤ b) < 2 ^ 127 }
    ensures { result ≡ a +ℤ b }
{
    a + b
}

fn times(w: i64, n: u64) -> i128
    requires { n ≤ most_root }
    ensures value { result ≡ w *ℤ pos n }
    ensures size { unsigned_abs result ≤ 2 ^ 99 }
{
    w as i128 * n as i128
}

fn add_at(rows: &mut [i128], k: usize, x: i128)
    requires there { k < length rows.old }
    requires room { AreAllWithin (2 ^ 125) rows.old }
    requires small { unsigned_abs x ≤ 2 ^ 125 }
    ensures added { AddsAt rows.old rows.new k x }
    ensures same_length { length rows.new ≡ length rows.old }
{
    rows[k] = plus(rows[k], x);
}

fn other(player: Player, z: Leaf) -> usize
    ensures { result ≡ leaf_sequence (opponent player) (leaf_of z) }
{
    match player {
        Player::One => z.seq2 as usize,
        Player::Two => z.seq1 as usize,
    }
}

// What a leaf pays against the other player's numbers.
fn paid_at_leaf(player: Player, z: Leaf, against: &[u64]) -> i128
    requires there { leaf_sequence (opponent player) (leaf_of z) < length against.now }
    requires numbers { (s : ℕ) → slice_index against.now s ≤ most_root }
    ensures value { result ≡ paid_at_leaf player against.now (leaf_of z) }
    ensures small { unsigned_abs result ≤ 2 ^ 99 }
{
    times(z.w, against[other(player, z)])
}

fn set_at(sums: &mut [i128], k: usize, x: i128)
    requires there { k < length sums.old }
    ensures here { row sums.new k ≡ x }
    ensures others { (j : ℕ) → (j ≡ k → ⊥) → row sums.new j ≡ row sums.old j }
    ensures same_length { length sums.new ≡ length sums.old }
{
    sums[k] = x;
}

fn sum_on(sums: &[i128], next: Option<u32>) -> i128
    requires { IsNumberWithin (length sums.now) next }
    ensures { result ≡ sum_on sums.now next }
{
    match next {
        Some(z) => sums[z as usize - 1],
        None => 0,
    }
}

// The sum of leaf `z` and of the leaves after it on its thread.
fn sum_from(form: &SeqForm, player: Player, z: u32, against: &[u64], sums: &[i128]) -> i128
    requires from_one { 1 ≤ z }
    requires there { z ≤ length form.now.leaves }
    requires against { length against.now ≡ sequence_count (player_sets form.now (opponent player)) }
    requires numbers { (s : ℕ) → slice_index against.now s ≤ most_root }
    requires sums { length sums.now ≡ length form.now.leaves }
    requires behind { HasSumsFrom z player form.now.leaves against.now sums.now }
    ensures sum { result
        ≡ leaf_sum player (drop (z - 1) form.now.leaves) against.now (sequence_of_leaf player z form.now.leaves) }
    ensures small { unsigned_abs result ≤ (length form.now.leaves - (z - 1)) * 2 ^ 99 }
{
    form.leaf_count();
    let paid = paid_at_leaf(player, form.leaf(z), against);
    plus(paid, sum_on(sums, form.next_leaf(player, z)))
}

fn put_sum(form: &SeqForm, player: Player, z: u32, against: &[u64], sums: &mut [i128])
    requires from_one { 1 ≤ z }
    requires there { z ≤ length form.now.leaves }
    requires against { length against.now ≡ sequence_count (player_sets form.now (opponent player)) }
    requires numbers { (s : ℕ) → slice_index against.now s ≤ most_root }
    requires sums { length sums.old ≡ length form.now.leaves }
    requires behind { HasSumsFrom z player form.now.leaves against.now sums.old }
    ensures sums { HasSumsFrom (z - 1) player form.now.leaves against.now sums.new }
    ensures same_length { length sums.new ≡ length sums.old }
{
    let sum = sum_from(form, player, z, against, sums);
    set_at(sums, z as usize - 1, sum);
}

// Goes from the last leaf to the first, so that at each leaf the sum from the next one of its thread on is known: the
// leaves are met in their order, where a walk along each thread would wait for each leaf in turn.
fn sum_threads(form: &SeqForm, player: Player, against: &[u64], sums: &mut [i128])
    requires against { length against.now ≡ sequence_count (player_sets form.now (opponent player)) }
    requires numbers { (s : ℕ) → slice_index against.now s ≤ most_root }
    requires room { length sums.old ≡ length form.now.leaves }
    ensures sums { HasSumsFrom 0 player form.now.leaves against.now sums.new }
    ensures same_length { length sums.new ≡ length sums.old }
{
    for i in (0..form.leaf_count()).rev() {
        put_sum(form, player, i + 1, against, sums);
    }
}

// Adds to the row of a sequence the sum from its first leaf on.
fn add_leaf_sum(
    form: &SeqForm,
    player: Player,
    sequence: u32,
    against: &[u64],
    sums: &[i128],
    rows: &mut [i128],
)
    requires there { sequence < sequence_count (player_sets form.now player) }
    requires rows { length rows.old ≡ sequence_count (player_sets form.now player) }
    requires room { AreAllWithin (2 ^ 125) rows.old }
    requires sums { HasSumsFrom 0 player form.now.leaves against.now sums.now }
    requires sum_count { length sums.now ≡ length form.now.leaves }
    ensures added { AddsAt rows.old rows.new sequence (leaf_sum player form.now.leaves against.now sequence) }
    ensures small { unsigned_abs (leaf_sum player form.now.leaves against.now sequence) ≤ 2 ^ 119 }
    ensures same_length { length rows.new ≡ length rows.old }
{
    form.leaf_count();
    let sum = sum_on(sums, form.first_leaf(player, sequence));
    add_at(rows, sequence as usize, sum);
}

/// Adds to the row of each of the player's sequences the sum over its leaves, of each the weight times the other
/// player's number. In `sums` there is room for a number of each leaf.
pub(crate) fn add_leaves(
    form: &SeqForm,
    player: Player,
    against: &[u64],
    sums: &mut [i128],
    rows: &mut [i128],
)
    requires rows { length rows.old ≡ sequence_count (player_sets form.now player) }
    requires against { length against.now ≡ sequence_count (player_sets form.now (opponent player)) }
    requires numbers { (s : ℕ) → slice_index against.now s ≤ most_root }
    requires sums { length sums.old ≡ length form.now.leaves }
    requires none { AreAllWithin 0 rows.old }
    ensures sums { (s : ℕ) → row rows.new s ≡ row rows.old s +ℤ leaf_sum player form.now.leaves against.now s }
    ensures same_length { length rows.new ≡ length rows.old }
    ensures small { AreAllWithin (2 ^ 119) rows.new }
    ensures same_sum_count { length sums.new ≡ length sums.old }
{
    form.facts();
    sum_threads(form, player, against, sums);
    for s in 0..form.sequence_count(player) {
        add_leaf_sum(form, player, s, against, sums, rows);
    }
}

fn add_value(before: u32, values: &[i128], k: usize, rows: &mut [i128])
    requires there { before < length rows.old }
    requires value_there { k < length values.now }
    requires value { unsigned_abs (row values.now k) ≤ most_printed }
    requires room { AreAllWithin (2 ^ 125) rows.old }
    ensures added { AddsAt rows.old rows.new before (row values.now k) }
    ensures same_length { length rows.new ≡ length rows.old }
{
    add_at(rows, before as usize, values[k]);
}

/// Adds the printed values to the rows of the sequences before their sets.
pub(crate) fn add_values(form: &SeqForm, player: Player, values: &[i128], rows: &mut [i128])
    requires as_many { length values.now ≡ length (player_sets form.now player) }
    requires values { All (λ v. unsigned_abs v ≤ most_printed) values.now }
    requires order { AreInOrder (player_sets form.now player) }
    requires limit { sequence_count (player_sets form.now player) ≤ most_sequences }
    requires rows { length rows.old ≡ sequence_count (player_sets form.now player) }
    requires room { AreAllWithin (2 ^ 119) rows.old }
    ensures sums { (s : ℕ) → row rows.new s
        ≡ row rows.old s +ℤ values_after (placed (player_sets form.now player)) values.now s }
    ensures same_length { length rows.new ≡ length rows.old }
{
    for k in 0..form.set_count(player) {
        let h = form.place_of(player, k + 1);
        add_value(h.before, values, k as usize, rows);
    }
}
