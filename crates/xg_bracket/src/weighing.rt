//! What rounds weigh.
ghost use Rattle.std.specs.Prelude.{◌≡◌, ◌≤◌};
ghost use Rattle.def_plus.specs.Variants.{weight_of_rounds};
ghost use Rattle.def_reply.specs.Offers.{most_divisor};

use def_plus::Variant;

// What the rounds up to this one weigh together.
pub(crate) fn weight(variant: Variant, round: u32) -> u32
    requires small { weight_of_rounds variant round ≤ most_divisor }
    ensures { result ≡ weight_of_rounds variant round }
{
    match variant {
        Variant::Plain => round,
        Variant::Plus => {
            let round = u64::from(round);
            (round * (round + 1) / 2) as u32
        }
    }
}
