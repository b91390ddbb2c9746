//! The versions of a certificate's text.

/// The version of a text, which its first line names.
#[derive(Clone, Copy)]
pub enum TextVersion {
    /// The sum stands behind the unit, where it isn't 0.
    One,
    /// The sum has a line of its own, and so has the bracket of player two's own payoff.
    Two,
}
