//! Sizes of weights and of numbers, by which sums of their products have room.
ghost use Rattle.std.specs.Prelude.{◌≡◌, ◌↔◌, ◌*◌, ◌^◌, ◌<◌, ◌≤◌, All, IsTrue, max};
ghost use Rattle.def_sums.specs.Limits.{most_root};
ghost use Rattle.def_plan.specs.Payoff.{mass_of};
ghost use Rattle.xg_seq.specs.Leaves.{HasSequences};
ghost use Rattle.xg_jobs.specs.Groups.{greatest_of};

use def_sums::MOST_ROOT;
use xg_seq::SeqForm;

/// The sizes of all weights together.
pub fn total_mass(form: &SeqForm) -> u64
    ensures mass { result ≡ mass_of form.now.leaves }

    // What is true of every form.
    ensures sequences { All (HasSequences form.now) form.now.leaves }
{
    let mut mass = 0;
    for z in 0..form.leaf_count() {
        mass += form.leaf(z + 1).w.unsigned_abs();
    }
    mass
}

/// The greatest of both players' numbers.
pub fn greatest_number(one: &[u64], two: &[u64]) -> u64
    ensures { result ≡ max (greatest_of one.now) (greatest_of two.now) }
{
    greatest(one).max(greatest(two))
}

fn greatest(numbers: &[u64]) -> u64
    ensures { result ≡ greatest_of numbers.now }
{
    let mut greatest = 0;
    for n in numbers {
        if *n > greatest {
            greatest = *n;
        }
    }
    greatest
}

/// Whether each sum is within 64 bits, with its sign. Light weights tell it whatever the numbers are.
pub fn sums_fit_word(mass: u64, one: &[u64], two: &[u64]) -> bool
    requires small_one { All (λ n. n ≤ most_root) one.now }
    requires small_two { All (λ n. n ≤ most_root) two.now }
    ensures { IsTrue result ↔ mass * max (greatest_of one.now) (greatest_of two.now) < 2 ^ 63 }
{
    fits_word(mass, MOST_ROOT) || fits_word(mass, greatest_number(one, two))
}

// Whether a sum of products is within 64 bits, with its sign.
fn fits_word(mass: u64, most: u64) -> bool
    ensures { IsTrue result ↔ mass * most < 2 ^ 63 }
{
    (mass as u128) * (most as u128) < 1 << 63
}
