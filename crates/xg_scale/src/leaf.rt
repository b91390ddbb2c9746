//! What a leaf pays both players together, what it is expected to pay, and the unit.
ghost use Rattle.std.specs.Prelude.{◌≡◌, ◌≤◌, ◌%◌, ◌↔◌, ◌++◌, None, neg_ℤ, pos, IfErr, IfOk, IsTrue, OkIff, OnOk};
ghost use Rattle.def_fraction.specs.Divisors.{lcm};
ghost use Rattle.def_fraction.specs.Fraction.{fits, most, product_of, sum_of};
ghost use Rattle.xg_scale.specs.FaultOfFile.{IsFaultOf, RefusesBy};
ghost use Rattle.xg_scale.specs.Leaf.{TakesIn, judged_leaf, judged_node, known_with, leaf_unit, sum_from_first};
ghost use Rattle.xg_scale.specs.Leaf.{unit_with, with_expected};

use crate::parts::{denominator, is_same, known};
use crate::path::PathNumbers;
use crate::products::Products;
use crate::range::{PayoffRange, range_with};
use std::alloc::Global;
use xg_frac::{Frac, OverLimit, add, lcm, zero};
use xg_game::{FileFault, Refused};
use xg_tree::{Node, is_leaf};

/// Of the leaves so far: what each pays both players together, which the first one tells; reach times player one's
/// payoff at each; the unit that makes all of this whole; and the range of player one's payoffs.
#[derive(Drop)]
pub(crate) struct Expected {
    pub(crate) products: Products,
    pub(crate) sum: Option<Frac>,
    pub(crate) unit: u64,
    pub(crate) fractions: Vec<Frac>,
    pub(crate) range: Option<PayoffRange>,
}

impl Expected {
    /// Judges node `k`. What a leaf is expected to pay comes last.
    #[inline(always)]
    pub(crate) fn judge(&mut self, k: u32, node: Node, numbers: &PathNumbers) -> Result<(), Refused>
        requires from_one { 1 ≤ self.old.unit }
        requires limit { self.old.unit ≤ most }
        ensures ok { OnOk result (judged_node k node self.old.sum self.old.unit numbers.now ≡ None) }
        ensures sum { OnOk result (self.new.sum ≡ known_with node self.old.sum numbers.now) }
        ensures unit { OnOk result (self.new.unit ≡ unit_with node self.old.sum self.old.unit numbers.now) }
        ensures limit { OnOk result (self.new.unit ≤ most) }
        ensures fractions { OnOk result
            (self.new.fractions.items ≡ self.old.fractions.items ++ with_expected node numbers.now) }
        ensures range { OnOk result (TakesIn node numbers.now self.old.range self.new.range) }
        ensures err { IfErr result (RefusesBy (judged_node k node self.old.sum self.old.unit numbers.now)) }
    {
        if !is_leaf(node) {
            return Ok(());
        }
        let leaf = judge_leaf(k, &mut self.products, self.sum, self.unit, numbers)?;
        let Ok(()) = self.fractions.push(leaf.expected) else {
            return Err(Refused::NoMemory);
        };
        self.sum = Some(leaf.sum);
        self.unit = leaf.unit;
        self.range = Some(range_with(self.range, numbers.one));
        Ok(())
    }
}

/// What each leaf pays both players together, what one is expected to pay, and the unit with it.
#[derive(Clone, Copy)]
struct LeafNumbers {
    sum: Frac,
    expected: Frac,
    unit: u64,
}

/// Judges a leaf, where `known` is what the first one pays both players together, and is none at the first one.
#[inline(always)]
fn judge_leaf(
    k: u32,
    products: &mut Products,
    known: Option<Frac>,
    so_far: u64,
    numbers: &PathNumbers,
) -> Result<LeafNumbers, FileFault>
    requires from_one { 1 ≤ so_far }
    requires limit { so_far ≤ most }
    ensures ok { OnOk result (judged_leaf k known so_far numbers.now ≡ None) }
    ensures sum { IfOk result (λ leaf. leaf.sum ≡ sum_from_first known numbers.now) }
    ensures expected { IfOk result (λ leaf. leaf.expected ≡ product_of numbers.now.reach numbers.now.one) }
    ensures unit { IfOk result (λ leaf. leaf.unit ≡ leaf_unit known so_far numbers.now) }
    ensures limit { IfOk result (λ leaf. leaf.unit ≤ most) }
    ensures err { IfErr result (IsFaultOf (judged_leaf k known so_far numbers.now)) }
{
    let Ok(paid) = together(numbers.one, numbers.two) else {
        return Err(FileFault::Scale { node: k });
    };
    let sum = known.unwrap_or(paid);
    if !is_same(paid, sum) {
        return Err(FileFault::NotConstantSum { node: k });
    }
    let Ok(expected) = reach_times(products, numbers.reach, numbers.one) else {
        return Err(FileFault::Scale { node: k });
    };
    let Ok(unit) = unit_with_leaf(sum, expected, so_far) else {
        return Err(FileFault::Scale { node: k });
    };
    Ok(LeafNumbers {
        sum,
        expected,
        unit,
    })
}

/// What a leaf is expected to pay. Where chance doesn't move, each leaf has the reach 1.
#[inline(always)]
fn reach_times(products: &mut Products, reach: Frac, payoff: Frac) -> Result<Frac, OverLimit>
    ensures { OkIff result (IsTrue (fits (product_of reach payoff))) (product_of reach payoff) }
{
    let payoff = known(payoff);
    if is_number_one(reach) {
        return Ok(payoff);
    }
    products.product(reach, payoff)
}

/// Whether both parts are 1.
fn is_number_one(f: Frac) -> bool
    ensures { IsTrue result → (f.num ≡ pos 1) × (f.den ≡ 1) }
{
    f.num() == 1 && f.den() == 1
}

/// The unit so far with the denominators of the sum and of what a leaf is expected to pay.
#[inline(always)]
fn unit_with_leaf(sum: Frac, expected: Frac, so_far: u64) -> Result<u64, OverLimit>
    requires from_one { 1 ≤ so_far }
    requires limit { so_far ≤ most }
    ensures { let exact = lcm expected.den (lcm sum.den so_far) in OkIff result (exact ≤ most) exact }
{
    let own = denominator(expected);
    let Ok(with_sum) = unit_with(denominator(sum), so_far) else {
        return Err(OverLimit);
    };
    unit_with(own, with_sum)
}

/// The least common multiple of a denominator and the unit so far, which it mostly divides.
#[inline(always)]
fn unit_with(denominator: u64, so_far: u64) -> Result<u64, OverLimit>
    requires from_one { (1 ≤ denominator) × (1 ≤ so_far) }
    requires within { (denominator ≤ most) × (so_far ≤ most) }
    ensures { OkIff result (lcm denominator so_far ≤ most) (lcm denominator so_far) }
{
    if divides(denominator, so_far) {
        return Ok(so_far);
    }
    lcm(denominator, so_far)
}

// Whether a number divides another one. Most denominators are 1.
fn divides(divisor: u64, n: u64) -> bool
    requires { 1 ≤ divisor }
    ensures { IsTrue result → n % divisor ≡ 0 }
{
    divisor == 1 || n % divisor == 0
}

/// The sum, which is mostly 0.
#[inline(always)]
fn together(a: Frac, b: Frac) -> Result<Frac, OverLimit>
    ensures { OkIff result (IsTrue (fits (sum_of a b))) (sum_of a b) }
{
    let (a, b) = (known(a), known(b));
    if are_opposite(a, b) {
        return Ok(zero());
    }
    add(a, b)
}

/// Whether one is the other with the other sign.
fn are_opposite(a: Frac, b: Frac) -> bool
    ensures { IsTrue result ↔ (a.num ≡ neg_ℤ b.num) × (a.den ≡ b.den) }
{
    a.num() == -b.num() && a.den() == b.den()
}
