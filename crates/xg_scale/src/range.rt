//! The least and the greatest of some payoffs.
ghost use Rattle.std.specs.Prelude.{◌≡◌, ◌++◌, ◌∷◌, ◌⊎◌, [], List, Some, IsTrue, IsFalse};
ghost use Rattle.def_fraction.specs.Fraction.{Fraction};
ghost use Rattle.def_fraction.specs.Order.{IsAtMost};
ghost use Rattle.xg_scale.specs.Range.{IsRangeOf};

use crate::parts::known;
use std::cmp::Ordering;
use xg_frac::{Frac, compare};

/// The least and the greatest of what leaves pay player one.
#[derive(Clone, Copy)]
pub struct PayoffRange {
    pub least: Frac,
    pub greatest: Frac,
}

/// The range with one payoff more.
#[inline(always)]
pub(crate) fn range_with(range: Option<PayoffRange>, payoff: Frac) -> PayoffRange
    ensures { (payoffs : List Fraction) → IsRangeOf payoffs range → IsRangeOf (payoffs ++ payoff ∷ []) (Some result) }
{
    match range {
        Some(range) => PayoffRange {
            least: lesser(known(range.least), payoff),
            greatest: greater(known(range.greatest), payoff),
        },
        None => PayoffRange {
            least: payoff,
            greatest: payoff,
        },
    }
}

#[inline(always)]
fn lesser(a: Frac, b: Frac) -> Frac
    ensures one { (result ≡ a) ⊎ (result ≡ b) }
    ensures first { IsAtMost result a }
    ensures second { IsAtMost result b }
{
    if is_less(b, a) { b } else { a }
}

#[inline(always)]
fn greater(a: Frac, b: Frac) -> Frac
    ensures one { (result ≡ a) ⊎ (result ≡ b) }
    ensures first { IsAtMost a result }
    ensures second { IsAtMost b result }
{
    if is_less(a, b) { b } else { a }
}

/// Whether the value of one is below that of the other. Most fractions have the same denominator.
#[inline(always)]
fn is_less(a: Frac, b: Frac) -> bool
    ensures less { IsTrue result → IsAtMost a b }
    ensures other { IsFalse result → IsAtMost b a }
{
    if a.den() == b.den() {
        return a.num() < b.num();
    }
    matches!(compare(a, b), Ordering::Less)
}
