//! What rows are made from.
use xg_seq::SeqForm;

/// What rows are made from: a form, and a number for each sequence of each player.
#[derive(Clone, Copy)]
pub struct RowInput<'a> {
    pub form: &'a SeqForm,
    pub one: &'a [u64],
    pub two: &'a [u64],
}

/// A range of player one's groups, with the numbers of both players that belong to them.
#[derive(Drop)]
pub(crate) struct Groups<'a, E> {
    // where each group begins, and behind them where the last one ends
    pub(crate) starts: &'a [u32],
    pub(crate) entries: &'a [E],
    // a number for each group, and one for each sequence of player two
    pub(crate) one: &'a [u64],
    pub(crate) two: &'a [u64],
}
