//! The parts of fractions.
ghost use Rattle.std.specs.Prelude.{◌≡◌, ◌≤◌, unsigned_abs, IsTrue};
ghost use Rattle.def_fraction.specs.Fraction.{IsInLowestTerms, fits, most};
ghost use Rattle.def_game_scale.specs.Faults as faults;

use xg_frac::Frac;

/// The fraction, of which this is known.
pub(crate) fn known(f: Frac) -> Frac
    ensures same { result ≡ f }
    ensures lowest { IsInLowestTerms f }
    ensures small { IsTrue (fits f) }
{
    f.facts();
    f
}

pub(crate) fn is_negative(f: Frac) -> bool
    ensures { result ≡ faults.is_negative f }
{
    f.num() < 0
}

/// Whether it is 1.
pub(crate) fn is_one(f: Frac) -> bool
    ensures { result ≡ faults.is_one f }
{
    f.num() == f.den()
}

/// The size of the numerator.
pub(crate) fn size(f: Frac) -> u64
    ensures value { result ≡ unsigned_abs f.num }
    ensures limit { result ≤ most }
{
    f.num().unsigned_abs() as u64
}

pub(crate) fn denominator(f: Frac) -> u64
    ensures value { result ≡ f.den }
    ensures positive { 1 ≤ result }
    ensures limit { result ≤ most }
{
    f.den() as u64
}

/// Whether both have the same parts, as the same fractions have.
#[inline(always)]
pub(crate) fn is_same(a: Frac, b: Frac) -> bool
    ensures exact { result ≡ faults.is_same a b }
    ensures same { IsTrue result → a ≡ b }
{
    a.num() == b.num() && a.den() == b.den()
}
