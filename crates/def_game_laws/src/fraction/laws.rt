//! What the definitions compute, in the words of arithmetic and of number formats.

ghost use Rattle.def_fraction.specs.Laws.{GcdIsGreatest, LcmIsLeast, FractionIsReduced, ValueTellsFraction};
ghost use Rattle.def_fraction.specs.Laws.{OrderIsTotal, LiteralIsSpelled, LiteralIsJudged, TextIsCanonical};
ghost use Rattle.def_fraction.specs.Laws.{FractionIsReadBack};

/// `gcd a b` divides both numbers, and each common divisor divides it.
pub fn gcd_is_greatest()
    ensures { GcdIsGreatest }
{}

/// Of numbers from 1 on, both divide `lcm a b`, and it divides each number that both divide.
pub fn lcm_is_least()
    ensures { LcmIsLeast }
{}

/// The fraction of a numerator and a denominator from 1 on is in lowest terms and has their value.
pub fn fraction_is_reduced()
    ensures { FractionIsReduced }
{}

/// Fractions in lowest terms that have one value are equal.
pub fn value_tells_fraction()
    ensures { ValueTellsFraction }
{}

/// `order_of` orders fractions in lowest terms by value: equal ones are one, it turns with the two, and less than less
/// is less.
pub fn order_is_total()
    ensures { OrderIsTotal }
{}

/// Bytes are read as a literal exactly where they spell it.
pub fn literal_is_spelled()
    ensures { LiteralIsSpelled }
{}

/// Reading gives each fault exactly where the bytes have it, and a fraction exactly where it is the value of the
/// literal that they are, within the limits.
pub fn literal_is_judged()
    ensures { LiteralIsJudged }
{}

/// A whole number's text, up to 2^127 in size, is digits that write it without a leading 0, and `-` before them where
/// it is negative.
pub fn text_is_canonical()
    ensures { TextIsCanonical }
{}

/// What is written of a fraction in lowest terms, within the limit, is read as the same fraction.
pub fn fraction_is_read_back()
    ensures { FractionIsReadBack }
{}
