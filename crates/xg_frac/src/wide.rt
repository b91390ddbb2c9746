//! Fractions whose parts may be larger than those of a `Frac`: bounds of payoffs, over unit and root.
ghost use Rattle.std.specs.Prelude.{◌≡◌, ◌^◌, ◌<◌, ◌≤◌, ◌≤ℤ◌, pos, unsigned_abs};
ghost use Rattle.def_fraction.specs.Fraction.{IsInLowestTerms, signed, fraction_of, most_wide};

use crate::fraction::greatest_common_divisor;
use std::marker::Model;

/// An exact fraction in lowest terms, whose parts are at most 2^100 in size and whose denominator is at least 1. Equal
/// fractions have equal parts.
#[derive(Clone, Copy, PartialEq, Eq)]
pub struct Ratio {
    num: i128,
    den: i128,
}

impl Model for Ratio {
    ghost use Rattle.std.specs.Prelude.{pos, unsigned_abs};
    ghost use Rattle.def_fraction.specs.Fraction.{Fraction};
    ghost use Rattle.xg_frac.specs.Wide.{AreWideParts};
    ghost use Rattle.xg_frac.specs.WideBack.{wide_parts_back};

    ghost Value = { Fraction };

    ghost view = { λ r. record { num = r.num; den = unsigned_abs r.den } };

    ghost invariant = { λ r. AreWideParts r.num r.den };

    ghost inverse = { λ v. record { num = v.num; den = pos v.den } };

    ghost inverse_ok = { λ r h. wide_parts_back r h };
}

impl Ratio {
    /// The numerator, which has the fraction's sign.
    pub fn num(&self) -> i128
        ensures value { result ≡ self.now.num }
        ensures size { unsigned_abs result ≤ most_wide }
        ensures lowest { IsInLowestTerms self.now }
    {
        self.num
    }

    /// The denominator.
    pub fn den(&self) -> i128
        ensures value { result ≡ pos self.now.den }
        ensures positive { pos 1 ≤ℤ result }
        ensures size { unsigned_abs result ≤ most_wide }
        ensures lowest { IsInLowestTerms self.now }
    {
        self.den
    }
}

/// The fraction of this sign and these sizes.
pub(crate) fn of_sizes(negative: bool, num: u128, den: u128) -> Ratio
    requires num { num ≤ most_wide }
    requires from_one { 1 ≤ den }
    requires den { den ≤ most_wide }
    ensures { result ≡ fraction_of (signed negative num) den }
{
    let common = greatest_common_divisor(num, den);
    Ratio {
        num: with_wide_sign(negative, num / common),
        den: (den / common) as i128,
    }
}

fn with_wide_sign(negative: bool, size: u128) -> i128
    requires { size < 2 ^ 127 }
    ensures { result ≡ signed negative size }
{
    let size = size as i128;
    if negative { -size } else { size }
}
