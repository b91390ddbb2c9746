//! The units of a play, dealt by parts.
ghost use Rattle.std.specs.Prelude.{◌≡◌, ◌<◌, ◌≤◌, length};

use crate::numbers::{PLAY_BITS, UNITS};

/// What the first of two actions gets of all units, by their parts.
pub(crate) fn first_of_two(a: u64, b: u64) -> u32
    ensures { result ≤ UNITS }
{
    let total = a.saturating_add(b);
    if total == 0 {
        return UNITS / 2;
    }
    // so that the total has 36 bits
    let shift = 28u32.saturating_sub(total.leading_zeros());
    units_of(a >> shift, total >> shift)
}

/// Deals all units by parts, whose total this is, and evenly where it is 0.
pub(crate) fn deal_units(parts: &[u64], total: u128, play: &mut [u32])
    requires count { length parts.now ≡ length play.old }
    requires some { 1 ≤ length play.old }
{
    if total == 0 {
        deal_evenly(play);
    } else {
        deal_by_parts(parts, total, play);
    }
}

/// Deals all units evenly.
pub(crate) fn deal_evenly(play: &mut [u32])
    requires { 1 ≤ length play.old }
{
    let count = play.len() as u64;
    let mut before = 0u32;
    for i in 0..play.len() {
        let upto = even_units(i as u64, count).max(before);
        play[i] = upto - before;
        before = upto;
    }
}

// What so many actions and one more get together.
fn even_units(actions: u64, count: u64) -> u32
    requires { 1 ≤ count }
    ensures { result ≤ UNITS }
{
    let all = UNITS as u64;
    (all.saturating_mul(actions.saturating_add(1)) / count).min(all) as u32
}

fn deal_by_parts(parts: &[u64], total: u128, play: &mut [u32])
    requires count { length parts.now ≡ length play.old }
    requires some { 1 ≤ length play.old }
{
    // so that the total has 36 bits
    let shift = 92u32.saturating_sub(total.leading_zeros());
    let whole = shifted(total, shift);
    let last = play.len() - 1;
    let mut sum = 0u128;
    let mut before = 0u32;
    for i in 0..last {
        sum = sum.wrapping_add(parts[i] as u128);
        let upto = units_of(shifted(sum, shift), whole).max(before);
        play[i] = upto - before;
        before = upto;
    }
    play[last] = UNITS - before;
}

fn shifted(n: u128, shift: u32) -> u64
    requires { shift < 128 }
{
    (n >> shift).min(u64::MAX as u128) as u64
}

// A part's share of all units, where the whole has 36 bits.
fn units_of(part: u64, whole: u64) -> u32
    ensures { result ≤ UNITS }
{
    let part = part.min((1 << 36) - 1);
    ((part << PLAY_BITS) / whole.max(1)).min(UNITS as u64) as u32
}
