//! Why bytes are no number.

/// Why bytes are no number, in the order in which the faults are sought.
#[derive(Clone, Copy, PartialEq, Eq)]
pub enum NumberFault {
    /// The bytes aren't of the form.
    Form,
    /// The number under the bar is 0.
    ZeroDenominator,
    /// The number is past a limit.
    Range,
}
