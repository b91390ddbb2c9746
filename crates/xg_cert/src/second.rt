//! What a sum leaves of an end of a bracket.
ghost use Rattle.std.specs.Prelude.{◌≡◌, ◌*◌, ◌^◌, ◌≤◌, ◌-ℤ◌, unsigned_abs};
ghost use Rattle.def_fraction.specs.Fraction.{most, most_wide};
ghost use Rattle.def_sums.specs.Limits.{most_row};
ghost use Rattle.def_game_scale.specs.Scale.{weight_of};
ghost use Rattle.def_cert_verdict.specs.Ranges.{IsFromTo};
ghost use Rattle.def_fraction.specs.Order.{difference_of};
ghost use Rattle.def_game_numbers.specs.WholeSums.{IsWholeIn};
ghost use Rattle.xg_cert.specs.Writable.{IsWholeEnd};

use crate::lines::wide;
use crate::scales::product;
use xg_frac::{Frac, Ratio, ratio};

/// The fraction times a number that makes it whole.
fn times(f: Ratio, whole: u128) -> i128
    requires whole { whole ≤ most_wide }
    requires small { unsigned_abs (weight_of whole f) ≤ most_row }
    ensures { result ≡ weight_of whole f }
{
    f.num() * (whole / f.den().unsigned_abs()) as i128
}

/// The first less the second, times a number that makes both whole.
fn left(f: Ratio, g: Ratio, whole: u128) -> i128
    requires whole { whole ≤ most_wide }
    requires first { unsigned_abs (weight_of whole f) ≤ most_row }
    requires second { unsigned_abs (weight_of whole g) ≤ most_row }
    ensures value { result ≡ weight_of whole f -ℤ weight_of whole g }
    ensures small { unsigned_abs result ≤ 2 ^ 99 }
{
    times(f, whole) - times(g, whole)
}

/// What the sum leaves of an end of player one's bracket, over the unit and the root of the end's plan: the other end
/// of player two's.
pub fn second_end(sum: Frac, unit: u64, root: u64, end: Ratio) -> Ratio
    requires unit { IsFromTo 1 most unit }
    requires sum { IsWholeIn unit sum }
    requires end { IsWholeEnd unit root end }
    ensures { result ≡ difference_of sum end }
{
    let whole = product(unit, root);
    ratio(left(wide(sum), end, whole), whole as i128)
}
