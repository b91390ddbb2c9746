//! What the totals of replies are over.
ghost use Rattle.std.specs.Prelude.{◌≡◌, ◌*◌, ◌≤◌, ◌≤ℤ◌, pos};
ghost use Rattle.def_fraction.specs.Fraction.{most, most_wide};
ghost use Rattle.def_sums.specs.Limits.{most_root};

/// The unit times the root.
pub(crate) fn product(unit: u64, root: u64) -> u128
    requires unit_from_one { 1 ≤ unit }
    requires unit { unit ≤ most }
    requires root_from_one { 1 ≤ root }
    requires root { root ≤ most_root }
    ensures value { result ≡ unit * root }
    ensures from_one { 1 ≤ result }
    ensures small { result ≤ most_wide }
{
    unit as u128 * root as u128
}

/// What the totals of a reply to a plan of this root are over, in a game of this unit.
pub fn scale_of(unit: u64, root: u64) -> i128
    requires unit_from_one { 1 ≤ unit }
    requires unit { unit ≤ most }
    requires root_from_one { 1 ≤ root }
    requires root { root ≤ most_root }
    ensures value { result ≡ pos (unit * root) }
    ensures from_one { pos 1 ≤ℤ result }
    ensures small { result ≤ℤ pos most_wide }
{
    product(unit, root) as i128
}
