//! The texts in front of a game's entries.

use xg_lex::Text;

/// The texts of a game's prologue. An absent comment is the empty text.
#[derive(Drop)]
pub(crate) struct Prologue {
    pub(crate) title: Text,
    pub(crate) one: Text,
    pub(crate) two: Text,
    pub(crate) comment: Text,
}
