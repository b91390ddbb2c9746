//! Fractions as decimals that have their values.
ghost use Rattle.std.specs.Prelude.{◌≡◌, ℕ, ◌≤◌, ◌<◌, ◌*◌, ◌/◌, ◌^◌, IfSome, IfNone};
ghost use Rattle.def_progress.specs.Decimals.{Suffice, most_places};

use crate::rounding::{MOST_PLACES, Rounded};

/// The decimal of `num/den` with the fewest places, if at most 18 suffice.
pub fn exact_decimal(num: u128, den: u128) -> Option<Rounded>
    requires some { 1 ≤ den }
    requires small_den { den < 2 ^ 124 }
    requires small { num / den < 2 ^ 64 }
    ensures exact { IfSome result (λ d. num * 10 ^ d.places ≡ d.number * den) }
    ensures fewest { IfSome result (λ d. (fewer : ℕ) → fewer < d.places → Suffice num den fewer → ⊥) }
    ensures none { IfNone result ((places : ℕ) → places ≤ most_places → Suffice num den places → ⊥) }
{
    let mut number = num / den;
    let mut rest = num % den;
    let mut places = 0;
    while places < MOST_PLACES && rest > 0 {
        number = number * 10 + rest * 10 / den;
        rest = rest * 10 % den;
        places += 1;
    }
    if rest > 0 {
        return None;
    }
    Some(Rounded { number, places })
}
