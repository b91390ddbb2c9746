//! Sums, products, quotients and the order of fractions.
ghost use Rattle.std.specs.Prelude.{◌≡◌, ◌^◌, ◌≤◌, ◌↔◌, pos, ◌*ℤ◌, ◌≤ℤ◌, unsigned_abs, IsTrue, OkIff};
ghost use Rattle.def_fraction.specs.Divisors.{lcm};
ghost use Rattle.def_fraction.specs.Fraction.{fraction_of, sum_of, product_of, order_of, fits, most, most_wide};

use crate::fraction::{Frac, OverLimit, greatest_common_divisor, in_lowest_terms};
use crate::wide::{Ratio, of_sizes};
use def_fraction::MOST_PART;
use std::cmp::Ordering;

/// The exact sum.
pub fn add(a: Frac, b: Frac) -> Result<Frac, OverLimit>
    ensures { OkIff result (IsTrue (fits (sum_of a b))) (sum_of a b) }
{
    let num = product(a.num(), b.den()) + product(b.num(), a.den());
    in_lowest_terms(num, product(a.den(), b.den()))
}

/// The exact product.
#[inline(always)]
pub fn mul(a: Frac, b: Frac) -> Result<Frac, OverLimit>
    ensures { OkIff result (IsTrue (fits (product_of a b))) (product_of a b) }
{
    in_lowest_terms(product(a.num(), b.num()), product(a.den(), b.den()))
}

/// The order of the values.
pub fn compare(a: Frac, b: Frac) -> Ordering
    ensures order { result ≡ order_of a b }
    ensures same { (result ≡ Ordering.Equal) ↔ (a ≡ b) }
{
    product(a.num(), b.den()).cmp(&product(b.num(), a.den()))
}

/// The product of two parts of fractions.
fn product(x: i128, y: i128) -> i128
    requires { (unsigned_abs x ≤ most) × (unsigned_abs y ≤ most) }
    ensures value { result ≡ x *ℤ y }
    ensures size { unsigned_abs result ≤ 2 ^ 124 }
    ensures positive { pos 1 ≤ℤ x → pos 1 ≤ℤ y → pos 1 ≤ℤ result }
{
    x * y
}

/// The least common multiple.
pub fn lcm(a: u64, b: u64) -> Result<u64, OverLimit>
    requires from_one { (1 ≤ a) × (1 ≤ b) }
    requires within { (a ≤ most) × (b ≤ most) }
    ensures { OkIff result (lcm a b ≤ most) (lcm a b) }
{
    let (a, b) = (a as u128, b as u128);
    let multiple = a / greatest_common_divisor(a, b) * b;
    if multiple > MOST_PART {
        return Err(OverLimit);
    }
    Ok(multiple as u64)
}

/// `num/den` in lowest terms.
pub fn ratio(num: i128, den: i128) -> Ratio
    requires num { unsigned_abs num ≤ most_wide }
    requires from_one { pos 1 ≤ℤ den }
    requires den { unsigned_abs den ≤ most_wide }
    ensures { result ≡ fraction_of num (unsigned_abs den) }
{
    of_sizes(num < 0, num.unsigned_abs(), den.unsigned_abs())
}
