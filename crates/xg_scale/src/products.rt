//! Products of reach and payoff that were worked out before.
ghost use Rattle.std.specs.Prelude.{◌≡◌, IsTrue, OkIff};
ghost use Rattle.def_fraction.specs.Fraction.{fits, product_of};

use crate::parts::{denominator, is_negative, is_same, known, size};
use std::alloc::{AllocError, Global};
use xg_frac::{Frac, OverLimit, mul, one_over};

/// How many products are kept.
const PLACES: usize = 256;

/// A reach, a payoff and their product.
#[derive(Clone, Copy)]
struct Product {
    reach: Frac,
    payoff: Frac,
    product: Frac,
    ghost exact: { product ≡ product_of reach payoff },
}

/// Products that were worked out before, each at a place by its factors. Most leaves have the factors of one before
/// them, and a product takes several divisions.
#[derive(Drop)]
pub(crate) struct Products {
    kept: Vec<Product>,
}

impl Products {
    /// The product of 1 and 1 at each place.
    pub(crate) fn new(alloc: Global) -> Result<Products, AllocError> {
        let one = known(one_over(1));
        let first = Product {
            reach: one,
            payoff: one,
            product: one,
        };
        Ok(Products {
            kept: vec![in alloc; first; PLACES]?,
        })
    }

    /// The exact product.
    #[inline(always)]
    pub(crate) fn product(&mut self, reach: Frac, payoff: Frac) -> Result<Frac, OverLimit>
        ensures { OkIff result (IsTrue (fits (product_of reach payoff))) (product_of reach payoff) }
    {
        let place = place_of(reach, payoff);
        if let Some(kept) = self.kept.get(place)
            && is_same(kept.reach, reach)
            && is_same(kept.payoff, payoff)
        {
            return Ok(known(kept.product));
        }
        let product = mul(reach, payoff)?;
        if place < self.kept.len() {
            self.kept[place] = Product {
                reach,
                payoff,
                product,
            };
        }
        Ok(product)
    }
}

/// The place of a product, which tells apart most of those that come together.
#[inline(always)]
fn place_of(reach: Frac, payoff: Frac) -> usize {
    let path = denominator(reach).wrapping_mul(31) ^ size(reach);
    let signed = size(payoff) * 2 + u64::from(is_negative(payoff));
    path.wrapping_mul(33).wrapping_add(signed) as usize % PLACES
}
