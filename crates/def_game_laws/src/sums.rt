//! Laws of `def_sums`: sums over lists, the signed numbers as a ring, and division that rounds down: what the
//! definitions of the solver stand on; and the limits of a run, each once: `specs/Limits` cites them.

ghost use Rattle.def_sums.specs.Laws.{RingLaws, OrderLaws, SizeLaws, SumLaws, FloorLaws};

/// Signed numbers are a commutative ring: sums and products group and commute, 0 and 1 change nothing, each number has
/// its negative, and a product spreads over a sum.
pub fn ring_laws()
    ensures { RingLaws }
{}

/// Sums, and products with a natural factor, keep the order; a factor that isn't 0 can be taken away again.
pub fn order_laws()
    ensures { OrderLaws }
{}

/// A sum's size is at most its terms' sizes together, and a product's size is the product of the sizes; naturals
/// within a bound add up to at most the bound times their number.
pub fn size_laws()
    ensures { SizeLaws }
{}

/// A sum over a list spreads over the list's parts, over sums and over a factor, keeps the order of its terms, and is
/// that of the naturals where they are; two sums can be taken in either order.
pub fn sum_laws()
    ensures { SumLaws }
{}

/// Where d is at least 1, `floor_div n d` is the one q with `q * d <= n < (q + 1) * d`; it is Euclid's quotient.
pub fn floor_laws()
    ensures { FloorLaws }
{}
