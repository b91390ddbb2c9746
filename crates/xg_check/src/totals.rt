//! The test of a total.
ghost use Rattle.std.specs.Prelude.{◌≡◌, ◌<◌, ◌≤◌, ◌≤ℤ◌, ◌&&◌, length, pos, unsigned_abs};
ghost use Rattle.std.specs.Ordering.{int_eq};
ghost use Rattle.def_fraction.specs.Fraction.{fraction_of, most_wide};
ghost use Rattle.def_cert_verdict.specs.declared.fault.TestFault.TheVariants.{TotalDiffers};
ghost use Rattle.def_cert_verdict.specs.Verdict.{end_shown_by, is_same_fraction, unless};
ghost use Rattle.xg_check.specs.Views.{row};

use crate::parts::PrintedEnd;
use def_cert_verdict::{TestFault, Which};
use def_tree::Player;
use xg_frac::{Ratio, ratio};

fn is_same_fraction(a: Ratio, b: Ratio) -> bool
    ensures { result ≡ is_same_fraction a b }
{
    a.num() == b.num() && a.den() == b.den()
}

fn end_shown_by(player: Player) -> Which
    ensures { result ≡ end_shown_by player }
{
    match player {
        Player::One => Which::Upper,
        Player::Two => Which::Lower,
    }
}

fn is_total(rows: &[i128], end: PrintedEnd) -> bool
    requires rows { 0 < length rows.now }
    requires total { unsigned_abs end.total ≤ most_wide }
    requires from_one { pos 1 ≤ℤ end.scale }
    requires scale { unsigned_abs end.scale ≤ most_wide }
    ensures { result ≡ (int_eq end.total (row rows.now 0)
        && (int_eq end.total end.traced
        && is_same_fraction end.bound (fraction_of end.total (unsigned_abs end.scale)))) }
{
    end.total == rows[0]
        && (end.total == end.traced && is_same_fraction(end.bound, ratio(end.total, end.scale)))
}

/// The test of a total, where the rows are the worths of the player's sequences.
pub(crate) fn total_fault(player: Player, rows: &[i128], end: PrintedEnd) -> Option<TestFault>
    requires rows { 0 < length rows.now }
    requires total { unsigned_abs end.total ≤ most_wide }
    requires from_one { pos 1 ≤ℤ end.scale }
    requires scale { unsigned_abs end.scale ≤ most_wide }
    ensures { result ≡ unless (int_eq end.total (row rows.now 0)
        && (int_eq end.total end.traced
        && is_same_fraction end.bound (fraction_of end.total (unsigned_abs end.scale))))
        (TotalDiffers (end_shown_by player)) }
{
    if is_total(rows, end) {
        return None;
    }
    Some(TestFault::TotalDiffers {
        end: end_shown_by(player),
    })
}
