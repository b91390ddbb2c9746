//! Products that are compared without being worked out.
ghost use Rattle.std.specs.Prelude.{◌≤◌, ◌*◌, ◌↔◌, IsTrue};

/// Whether `a * b` is at most `c * d`: Euclid's algorithm on `a / d` and `c / b`, so no product needs room.
pub fn is_at_most(a: u128, b: u128, c: u128, d: u128) -> bool
    requires first { 1 ≤ b }
    requires second { 1 ≤ d }
    ensures { IsTrue result ↔ (a * b ≤ c * d) }
{
    let (first, second) = (a / d, c / b);
    if first != second {
        return first < second;
    }
    let (left, right) = (a % d, c % b);
    if left == 0 {
        return true;
    }
    if right == 0 {
        return false;
    }
    is_at_most(b, left, d, right)
}
