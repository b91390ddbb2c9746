//! Whether the rows of an input have room in words.
ghost use Rattle.std.specs.Prelude.{◌≡◌, ◌<◌, ◌*◌, ◌↔◌, IsTrue};
ghost use Rattle.def_plan.specs.Payoff.{mass_of};
ghost use Rattle.def_words.specs.Amounts.{past_sizes};
ghost use Rattle.xg_words.specs.Running.{HasSmallSums};

use xg_jobs::{RowInput, greatest_number, total_mass};

/// Whether the sizes of all weights together, times the greatest number of both players, are below `2^62`, so that the
/// rows can be words.
pub fn fits(input: &RowInput<'_>) -> bool
    ensures { IsTrue result ↔ HasSmallSums input.now.form.now input.now.one.now input.now.two.now }
{
    fits_with(total_mass(input.form), input)
}

/// The same, where the sizes of all weights are added up already.
pub(crate) fn fits_with(mass: u64, input: &RowInput<'_>) -> bool
    requires { mass ≡ mass_of input.now.form.now.leaves }
    ensures { IsTrue result ↔ HasSmallSums input.now.form.now input.now.one.now input.now.two.now }
{
    is_small(mass, greatest_number(input.one, input.two))
}

fn is_small(mass: u64, most: u64) -> bool
    ensures { IsTrue result ↔ (mass * most < past_sizes) }
{
    (mass as u128) * (most as u128) < 1 << 62
}
