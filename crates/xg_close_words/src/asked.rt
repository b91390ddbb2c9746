//! What a call asks for.
use xg_frac::Frac;

/// The most rounds that may be asked.
pub const MOST_ROUNDS: u32 = 4_194_304;

/// The rounds that are played at the most where no number is given.
pub const USUAL_ROUNDS: u32 = 65_536;

/// What a call asks for.
#[derive(Clone, Copy)]
pub struct Asked<'a> {
    /// The name of the game's file.
    pub file: &'a str,
    /// What HIGH less LOW may be at the most, in the file's units of payoff; nothing where the range of player one's
    /// payoffs decides.
    pub width: Option<Frac>,
    /// How many rounds may be played.
    pub rounds: u32,
    /// Whether nothing is said of the progress.
    pub quiet: bool,
}
