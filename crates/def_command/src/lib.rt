//! The words that the program is called with and what they ask for, in definitions alone. Its laws and worked rows are
//! in
//! `def_text_laws`.
#![tactic(auto)]

/// The most files of a batch.
pub const MOST_FILES: usize = 16;

/// What is asked of a run: how many rounds are played, after how many of them the average plans are evaluated, and the
/// scale, which is the root of each round's plans.
///
/// There are 0 to 65,536 plain rounds, `every` is from 1 to 65,536, and the scale is from 1 to 1,048,576. Of rounds of
/// CFR+ there are at most 2,048, and their scale is at most 16,384.
#[derive(Clone, Copy)]
pub struct Settings {
    pub rounds: u32,
    pub every: u32,
    pub scale: u32,
}

/// The rows that the workers of a run add into.
#[derive(Clone, Copy)]
pub struct RowSettings {
    /// The number of workers, from 1 to 64, where one is given.
    pub workers: Option<u32>,
    /// Whether the workers add without locks.
    pub atomic: bool,
}
