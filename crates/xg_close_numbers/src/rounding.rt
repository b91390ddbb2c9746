//! Fractions as decimals that are none below them.
ghost use Rattle.std.specs.Prelude.{◌≤◌, ◌<◌, ◌*◌, ◌^◌};
ghost use Rattle.def_progress.specs.Decimals.{most_places};

/// The most places behind the point.
pub(crate) const MOST_PLACES: u32 = 18;

/// A decimal: so many units of the last place, of so many behind the point, which are at most 18.
#[derive(Clone, Copy, PartialEq, Eq)]
pub struct Rounded {
    pub number: u128,
    pub places: u32,
    ghost few: { places ≤ most_places },
}

/// A decimal that isn't below `num/den`, with three digits that count where the places suffice.
pub fn rounded_up(num: u128, den: u128) -> Rounded
    requires some { 1 ≤ den }
    requires small_num { num < 2 ^ 120 }
    requires small_den { den < 2 ^ 120 }
    ensures not_below { num * 10 ^ result.places ≤ result.number * den }
    ensures places { result.places ≤ 18 }
    ensures number { result.number < 2 ^ 126 }
{
    let mut number = num / den;
    let mut rest = num % den;
    let mut places = 0;
    while places < MOST_PLACES && (places == 0 || (number < 100 && rest > 0)) {
        number = number * 10 + rest * 10 / den;
        rest = rest * 10 % den;
        places += 1;
    }
    if rest > 0 {
        number += 1;
    }
    Rounded { number, places }
}
