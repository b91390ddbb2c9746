//! Fractions in lowest terms.
ghost use Rattle.std.specs.Prelude.{◌≡◌, ◌/◌, ◌^◌, ◌<◌, ◌≤◌, ◌≤ℤ◌, pos, unsigned_abs, IsTrue, OkIff, SomeIff};
ghost use Rattle.def_fraction.specs.Divisors.{gcd};
ghost use Rattle.def_fraction.specs.Fraction.{Fraction, IsInLowestTerms, signed, fraction_of, whole_number};
ghost use Rattle.def_fraction.specs.Fraction.{zero_fraction, is_zero, most, fits};

use def_fraction::MOST_PART;
use std::marker::Model;

/// A part of the exact result in lowest terms is past 2^62 in size.
#[derive(Clone, Copy, Debug, PartialEq, Eq)]
pub struct OverLimit;

/// An exact fraction in lowest terms, whose parts are at most 2^62 in size and whose denominator is at
/// least 1. Equal fractions have equal parts.
#[derive(Clone, Copy, PartialEq, Eq)]
pub struct Frac {
    num: i64,
    den: i64,
}

impl Model for Frac {
    ghost use Rattle.std.specs.Prelude.{pos, unsigned_abs};
    ghost use Rattle.def_fraction.specs.Fraction.{Fraction};
    ghost use Rattle.xg_frac.specs.Parts.{AreParts};
    ghost use Rattle.xg_frac.specs.PartsBack.{parts_back};

    ghost Value = { Fraction };

    ghost view = { λ f. record { num = f.num; den = unsigned_abs f.den } };

    ghost invariant = { λ f. AreParts f.num f.den };

    ghost inverse = { λ v. record { num = v.num; den = pos v.den } };

    ghost inverse_ok = { λ f h. parts_back f h };
}

impl Frac {
    /// The numerator, which has the fraction's sign.
    pub fn num(&self) -> i128
        ensures value { result ≡ self.now.num }
        ensures size { unsigned_abs result ≤ most }
        ensures lowest { IsInLowestTerms self.now }
        ensures small { IsTrue (fits self.now) }
    {
        self.num as i128
    }

    /// The denominator.
    pub fn den(&self) -> i128
        ensures value { result ≡ pos self.now.den }
        ensures positive { pos 1 ≤ℤ result }
        ensures size { unsigned_abs result ≤ most }
        ensures lowest { IsInLowestTerms self.now }
        ensures small { IsTrue (fits self.now) }
    {
        self.den as i128
    }

    /// Whether it is 0.
    pub fn is_zero(&self) -> bool
        ensures { result ≡ is_zero self.now }
    {
        self.num == 0
    }

    /// Does nothing: its clauses are what is true of every fraction.
    pub fn facts(&self)
        ensures lowest { IsInLowestTerms self.now }
        ensures small { IsTrue (fits self.now) }
    {
        let _num = self.num();
    }
}

/// The number 0.
pub fn zero() -> Frac
    ensures { result ≡ zero_fraction }
{
    whole(0).unwrap()
}

/// The whole number `n`.
pub fn whole(n: i64) -> Result<Frac, OverLimit>
    ensures { OkIff result (IsTrue (fits (whole_number n))) (whole_number n) }
{
    in_lowest_terms(n as i128, 1)
}

/// `1/n`.
pub fn one_over(n: u32) -> Frac
    requires { 1 ≤ n }
    ensures { result ≡ record { num = pos 1; den = n } }
{
    Frac {
        num: 1,
        den: n as i64,
    }
}

/// The greatest common divisor, in 64 bits where the numbers fit.
pub(crate) fn greatest_common_divisor(a: u128, b: u128) -> u128
    ensures value { result ≡ gcd a b }
    ensures positive { 1 ≤ b → 1 ≤ result }
{
    if b == 1 {
        return 1;
    }
    if a <= MOST_PART && b <= MOST_PART {
        return short_common_divisor(a as u64, b as u64) as u128;
    }
    wide_common_divisor(a, b)
}

/// The greatest common divisor, by Euclid's algorithm.
fn short_common_divisor(a: u64, b: u64) -> u64
    ensures value { result ≡ gcd a b }
    ensures positive { 1 ≤ b → 1 ≤ result }
{
    if b == 1 {
        return 1;
    }
    let (mut x, mut y) = if a < b { (b, a) } else { (a, b) };
    while y != 0 {
        (x, y) = (y, x % y);
    }
    x
}

/// The same in 128 bits.
fn wide_common_divisor(a: u128, b: u128) -> u128
    ensures value { result ≡ gcd a b }
    ensures positive { 1 ≤ b → 1 ≤ result }
{
    let (mut x, mut y) = (a, b);
    while y != 0 {
        (x, y) = (y, x % y);
    }
    x
}

/// The fraction of a numerator and a denominator.
#[inline(always)]
pub(crate) fn in_lowest_terms(num: i128, den: i128) -> Result<Frac, OverLimit>
    requires { pos 1 ≤ℤ den }
    ensures { let exact = fraction_of num (unsigned_abs den) in
        OkIff result (IsTrue (fits exact)) exact }
{
    reduced(num < 0, num.unsigned_abs(), den.unsigned_abs()).ok_or(OverLimit)
}

/// The fraction of this sign and these sizes, unless a part of it in lowest terms is past the limit. Most are within it
/// already.
#[inline(always)]
pub(crate) fn reduced(negative: bool, num: u128, den: u128) -> Option<Frac>
    requires { 1 ≤ den }
    ensures { let exact = fraction_of (signed negative num) den in
        SomeIff result (IsTrue (fits exact)) exact }
{
    if num <= MOST_PART && den <= MOST_PART {
        return Some(short_reduced(negative, num as u64, den as u64));
    }
    long_reduced(negative, num, den)
}

/// The same in 128 bits.
fn long_reduced(negative: bool, num: u128, den: u128) -> Option<Frac>
    requires { 1 ≤ den }
    ensures { let exact = fraction_of (signed negative num) den in
        SomeIff result (IsTrue (fits exact)) exact }
{
    let common = greatest_common_divisor(num, den);
    let num = quotient(num, common);
    let den = quotient(den, common);
    if num > MOST_PART || den > MOST_PART {
        return None;
    }
    Some(Frac {
        num: with_sign(negative, num as u64),
        den: den as i64,
    })
}

/// The same in 64 bits, where nothing is past the limit.
fn short_reduced(negative: bool, num: u64, den: u64) -> Frac
    requires from_one { 1 ≤ den }
    requires within { (num ≤ most) × (den ≤ most) }
    ensures { result ≡ fraction_of (signed negative num) den }
{
    let common = short_common_divisor(num, den);
    if common == 1 {
        return Frac {
            num: with_sign(negative, num),
            den: den as i64,
        };
    }
    Frac {
        num: with_sign(negative, num / common),
        den: (den / common) as i64,
    }
}

/// The quotient, rounded down, in 64 bits where the numbers fit.
fn quotient(n: u128, divisor: u128) -> u128
    requires { 1 ≤ divisor }
    ensures { result ≡ n / divisor }
{
    if divisor == 1 {
        return n;
    }
    if n <= MOST_PART && divisor <= MOST_PART {
        return (n as u64 / divisor as u64) as u128;
    }
    n / divisor
}

/// The number of this sign and this size.
pub fn with_sign(negative: bool, size: u64) -> i64
    requires { size < 2 ^ 63 }
    ensures { result ≡ signed negative size }
{
    let size = size as i64;
    if negative { -size } else { size }
}
