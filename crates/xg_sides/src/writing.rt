//! One player's rows from the groups, in either width.
ghost use Rattle.std.specs.Prelude.{◌≡◌, ℕ, ◌*◌, ◌<◌, ◌≤◌, All, length, map, pos};
ghost use Rattle.def_sums.specs.Limits.{most_mass, most_root};
ghost use Rattle.def_tree.specs.Opponent.{opponent};
ghost use Rattle.def_plan.specs.Form.{player_sets, sequence_count};
ghost use Rattle.def_plan.specs.FormRows.{amount_of, player_rows};
ghost use Rattle.xg_jobs.specs.Groups.{greatest_of};
ghost use Rattle.xg_jobs.specs.Table.{HasLeavesOf};
ghost use Rattle.xg_jobs.specs.Writing.{CanWrite};

use crate::alone::{spread_groups, sum_groups};
use crate::input::PlayerInput;
use def_tree::Player;
use xg_jobs::{GroupEntries, GroupEntry, JobTable, PairGroups, Row};

/// Writes for each sequence of one player the sum over its leaves against the other player's numbers, where each has
/// room. The rows begin with 0.
pub(crate) fn write_groups<R: Row>(jobs: &JobTable, input: &PlayerInput<'_>, rows: &mut [R])
    requires table { HasLeavesOf input.now.form.now jobs.now }
    requires numbers { length input.now.against.now ≡ sequence_count
        (player_sets input.now.form.now (opponent input.now.player)) }
    requires small { All (λ n. n ≤ most_root) input.now.against.now }
    requires room { jobs.now.mass ≤ most_mass → jobs.now.mass * greatest_of input.now.against.now < R.limit }
    requires count { length rows.old ≡ sequence_count (player_sets input.now.form.now input.now.player) }
    requires zeros { (b : ℕ) → amount_of (map R.amount rows.old) b ≡ pos 0 }
    ensures { map R.amount rows.new ≡ player_rows input.now.form.now input.now.player input.now.against.now }
{
    input.form.facts();
    let PairGroups {
        starts,
        entries,
        ..
    } = jobs.groups();
    match entries {
        GroupEntries::Tiny(entries) => write_alone(starts, entries, input, rows),
        GroupEntries::Small(entries) => write_alone(starts, entries, input, rows),
        GroupEntries::Wide(entries) => write_alone(starts, entries, input, rows),
    }
}

// Writes one player's rows, which begin with 0. Takes no memory.
fn write_alone<E: GroupEntry, R: Row>(
    starts: &[u32],
    entries: &[E],
    input: &PlayerInput<'_>,
    rows: &mut [R],
)
    requires numbers { length input.now.against.now ≡ sequence_count
        (player_sets input.now.form.now (opponent input.now.player)) }
    requires small { All (λ n. n ≤ most_root) input.now.against.now }
    requires can { CanWrite R.limit starts.now (map E.leaf entries.now) input.now.form.now input.now.against.now
        input.now.against.now }
    requires count { length rows.old ≡ sequence_count (player_sets input.now.form.now input.now.player) }
    requires zeros { (b : ℕ) → amount_of (map R.amount rows.old) b ≡ pos 0 }
    ensures { map R.amount rows.new ≡ player_rows input.now.form.now input.now.player input.now.against.now }
{
    let PlayerInput {
        player,
        against,
        ..
    } = *input;
    match player {
        Player::One => sum_groups(starts, entries, against, rows),
        Player::Two => spread_groups(starts, entries, against, rows),
    }
}
