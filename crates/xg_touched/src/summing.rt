//! What the leaves of a job bring to a row.
ghost use Rattle.std.specs.Prelude.{◌≡◌, ◌+◌, ◌-◌, ◌<◌, ◌≤◌, All, length, pos, ◌*ℤ◌};
ghost use Rattle.def_sums.specs.Limits.{most_root, past_number};
ghost use Rattle.def_tree.specs.Opponent.{opponent};
ghost use Rattle.def_plan.specs.Form.{player_sets, sequence_count};
ghost use Rattle.def_plan.specs.Threads.{first_leaf_from, paid_at_leaf, sequence_of_leaf};
ghost use Rattle.xg_touched.specs.Threads.{leaf_numbered, leaves_after, thread_sum};

use def_tree::Player;
use xg_seq::SeqForm;

/// The sum over a leaf and those after it on its thread, up to the last of a job.
#[inline(always)]
pub(crate) fn thread_sum(
    form: &SeqForm,
    player: Player,
    leaf: u32,
    last: u32,
    against: &[u64],
) -> i128
    requires from_one { 1 ≤ leaf }
    requires in_order { leaf ≤ last }
    requires there { last ≤ length form.now.leaves }
    requires count { length against.now ≡ sequence_count (player_sets form.now (opponent player)) }
    requires small { All (λ n. n ≤ most_root) against.now }
    ensures { result ≡ thread_sum player form.now.leaves against.now leaf last }
{
    // the mass of a form's leaves is within its limit
    form.facts();
    let mut sum = leaf_product(form, player, leaf, against);
    let mut z = leaf;
    'thread: while let Some(next) = next_within(form, player, z, last) {
        sum += leaf_product(form, player, next, against);
        z = next;
    }
    sum
}

// The next leaf of the thread, where it comes no later than the last leaf of a job.
fn next_within(form: &SeqForm, player: Player, z: u32, last: u32) -> Option<u32>
    requires from_one { 1 ≤ z }
    requires in_order { z ≤ last }
    requires there { last ≤ length form.now.leaves }
    ensures { result ≡ first_leaf_from player (sequence_of_leaf player z form.now.leaves) (z + 1)
        (leaves_after form.now.leaves z last) }
{
    let next = form.next_leaf(player, z)?;
    if next <= last { Some(next) } else { None }
}

// The weight of a leaf times the other player's number.
fn leaf_product(form: &SeqForm, player: Player, z: u32, against: &[u64]) -> i128
    requires from_one { 1 ≤ z }
    requires there { z ≤ length form.now.leaves }
    requires count { length against.now ≡ sequence_count (player_sets form.now (opponent player)) }
    requires small { All (λ n. n ≤ most_root) against.now }
    ensures { result ≡ paid_at_leaf player against.now (leaf_numbered form.now.leaves z) }
{
    // each leaf has sequences of the form
    form.facts();
    let leaf = form.leaf(z);
    match player {
        Player::One => times(leaf.w, against[leaf.seq2 as usize]),
        Player::Two => times(leaf.w, against[leaf.seq1 as usize]),
    }
}

fn times(w: i64, n: u64) -> i128
    requires { n < past_number }
    ensures { result ≡ w *ℤ pos n }
{
    // a product of two signed words is one instruction
    w as i128 * (n as i64) as i128
}
