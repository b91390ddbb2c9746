//! The leaf sums that a round begins with, and the sums of plans that it ends with.
ghost use Rattle.std.specs.Prelude.{◌≡◌, ◌<◌, length};

use crate::numbers::cut;
use def_tree::Player;

/// Takes the rows as they are to the player, shifted to 60 bits.
pub(crate) fn take_small_rows(player: Player, rows: &[i64], shift: u32, worths: &mut [i64])
    requires count { length rows.now ≡ length worths.old }
    requires shift { shift < 64 }
{
    match player {
        Player::One => shift_rows(rows, shift, worths),
        Player::Two => turn_rows(rows, shift, worths),
    }
}

fn shift_rows(rows: &[i64], shift: u32, worths: &mut [i64])
    requires count { length rows.now ≡ length worths.old }
    requires shift { shift < 64 }
{
    for s in 0..rows.len() {
        worths[s] = rows[s] >> shift;
    }
}

fn turn_rows(rows: &[i64], shift: u32, worths: &mut [i64])
    requires count { length rows.now ≡ length worths.old }
    requires shift { shift < 64 }
{
    for s in 0..rows.len() {
        worths[s] = rows[s].wrapping_neg() >> shift;
    }
}

/// The same with rows of 128 bits.
pub(crate) fn take_rows(player: Player, rows: &[i128], shift: u32, worths: &mut [i64])
    requires count { length rows.now ≡ length worths.old }
    requires shift { shift < 64 }
{
    for s in 0..rows.len() {
        worths[s] = cut(own_row(player, rows[s]) >> shift);
    }
}

fn own_row(player: Player, row: i128) -> i128 {
    match player {
        Player::One => row,
        Player::Two => row.wrapping_neg(),
    }
}

/// Adds a plan to a sum of plans as often as it weighs.
pub(crate) fn add_weighted(sums: &mut [u128], plan: &[u64], weight: u64)
    requires { length plan.now ≡ length sums.old }
{
    for s in 0..sums.len() {
        sums[s] = sums[s].wrapping_add(plan[s].wrapping_mul(weight) as u128);
    }
}

/// Divides a sum of plans by a power of two.
pub(crate) fn fade(sums: &mut [u128], bits: u32)
    requires { bits < 128 }
{
    for s in 0..sums.len() {
        sums[s] = sums[s] >> bits;
    }
}
