//! One player's rows from a table of jobs.
ghost use Rattle.std.specs.Prelude.{◌≡◌, ◌↔◌, ◌*◌, ◌^◌, ◌<◌, ◌≤◌, All, length, IsTrue};
ghost use Rattle.def_sums.specs.Limits.{most_root};
ghost use Rattle.def_tree.specs.Opponent.{opponent};
ghost use Rattle.def_plan.specs.Form.{player_sets, sequence_count};
ghost use Rattle.def_plan.specs.FormRows.{player_rows};
ghost use Rattle.xg_jobs.specs.Groups.{greatest_of};
ghost use Rattle.xg_jobs.specs.Table.{HasLeavesOf};

use crate::input::PlayerInput;
use crate::writing::write_groups;
use def_tree::Player;
use xg_jobs::{JobTable, sums_fit_word};
use xg_seq::SeqForm;

/// Writes the leaf sum of each sequence of one player against the other player's numbers, in player one's payoff.
/// Takes no memory.
pub fn write_rows_of(
    jobs: &JobTable,
    form: &SeqForm,
    player: Player,
    against: &[u64],
    rows: &mut [i128],
)
    requires table { HasLeavesOf form.now jobs.now }
    requires numbers { length against.now ≡ sequence_count (player_sets form.now (opponent player)) }
    requires small { All (λ n. n ≤ most_root) against.now }
    requires count { length rows.old ≡ sequence_count (player_sets form.now player) }
    ensures { rows.new ≡ player_rows form.now player against.now }
{
    rows.fill(0);
    let input = PlayerInput {
        form,
        player,
        against,
    };
    write_groups(jobs, &input, rows);
}

/// Writes the same in 64 bits, if it is known that each sum has room in them. Takes no memory.
pub fn write_small_rows_of(
    jobs: &JobTable,
    form: &SeqForm,
    player: Player,
    against: &[u64],
    rows: &mut [i64],
) -> bool
    requires table { HasLeavesOf form.now jobs.now }
    requires numbers { length against.now ≡ sequence_count (player_sets form.now (opponent player)) }
    requires small { All (λ n. n ≤ most_root) against.now }
    requires count { length rows.old ≡ sequence_count (player_sets form.now player) }
    ensures fits { IsTrue result ↔ jobs.now.mass * greatest_of against.now < 2 ^ 63 }
    ensures sums { IsTrue result → rows.new ≡ player_rows form.now player against.now }
    ensures count { length rows.new ≡ length rows.old }
{
    if !sums_fit_word(jobs.mass(), against, against) {
        return false;
    }
    rows.fill(0);
    let input = PlayerInput {
        form,
        player,
        against,
    };
    write_groups(jobs, &input, rows);
    true
}
