//! What one player's rows are made from.
use def_tree::Player;
use xg_seq::SeqForm;

/// What one player's rows are made from: a form, and a number for each sequence of the other player.
#[derive(Clone, Copy)]
pub(crate) struct PlayerInput<'a> {
    pub(crate) form: &'a SeqForm,
    pub(crate) player: Player,
    pub(crate) against: &'a [u64],
}
