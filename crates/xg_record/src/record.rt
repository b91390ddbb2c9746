//! An entry of a game file.

use crate::action::Actions;
use crate::payoffs::Payoffs;
use def_file::EntryKind;
use xg_lex::Text;

/// What an entry of a game file says. A field that an entry of this kind doesn't have is 0 or None.
///
/// Sets are numbered within chance and within each player, and outcomes within the game; outcome 0 is the null outcome.
/// The first mention of a set or an outcome has its list; a later one may leave out the name, the list or both.
#[derive(Drop)]
pub struct Record {
    pub kind: EntryKind,
    pub name: Text,
    pub player: u64,
    pub set: u64,
    pub set_name: Option<Text>,
    pub actions: Option<Actions>,
    pub outcome: u64,
    pub outcome_name: Option<Text>,
    pub payoffs: Option<Payoffs>,
}
