//! What is to be done.

use crate::plain::PlainWords;
use def_command::{RowSettings, Settings};

/// The command that the words name. The names of files are as they were written.
#[derive(Drop)]
pub enum Command<'a> {
    /// The game of a file is solved.
    Solve {
        file: &'a str,
        settings: Settings,
        rows: RowSettings,
    },
    /// A certificate is checked against the game of a file.
    Check {
        file: &'a str,
        certificate: &'a str,
    },
    /// A certificate that is accepted for the game of a file is written in the second version.
    Upgrade {
        file: &'a str,
        certificate: &'a str,
    },
    /// What a file's game is like is printed.
    Info {
        file: &'a str,
    },
    /// One-card poker with 2 to 64 cards is written as a file.
    Gen {
        cards: u32,
    },
    /// One-card poker with 2 to 64 cards is solved.
    Drill {
        cards: u32,
        settings: Settings,
        rows: RowSettings,
    },
    /// The game of a file is solved by rounds of CFR+. They are at most 2,048, and the scale is at most 16,384.
    Plus {
        file: &'a str,
        settings: Settings,
        rows: RowSettings,
    },
    /// The games of 1 to 16 files are solved, by 1 to 64 workers where a number of them is given.
    Batch {
        files: PlainWords<'a>,
        settings: Settings,
        workers: Option<u32>,
    },
}
