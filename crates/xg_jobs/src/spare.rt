//! Room for the rows of further threads.
use crate::pace::Pace;
use def_tree::Player;
use std::alloc::{AllocError, Global};
use xg_seq::SeqForm;

/// Room for player two's rows in all threads but the first, with the pace at which they are started, and whether a
/// thread pays for each player's work, too.
#[derive(Drop)]
pub(crate) struct SpareRows {
    pub(crate) rows: Vec<i64>,
    pub(crate) for_players: bool,
    pub(crate) pace: Pace,
}

impl SpareRows {
    /// For a form with so many leaves that threads may pay, and else without room.
    pub(crate) fn new(alloc: Global, form: &SeqForm) -> Result<SpareRows, AllocError> {
        let one = form.sequence_count(Player::One) as usize;
        let two = form.sequence_count(Player::Two) as usize;
        let pays = form.leaf_count() >= PAYING_ENTRIES;
        let rows = if pays {
            (THREADS - 1) as usize * two
        } else {
            0
        };
        Ok(SpareRows {
            rows: vec![in alloc; 0; rows]?,
            for_players: pays && one + two >= PAYING_SEQUENCES,
            // threads are started at once, of which nothing is known yet
            pace: Pace {
                saved: 0,
                pause: 0,
                left: 0,
            },
        })
    }
}

/// How many threads make rows where several pay.
pub(crate) const THREADS: u64 = 4;

/// How many entries pay for three threads' start in each round.
pub(crate) const PAYING_ENTRIES: u32 = 200_000;

/// How many sequences of both players pay for the start of one thread more in each round.
const PAYING_SEQUENCES: usize = 20_000;
