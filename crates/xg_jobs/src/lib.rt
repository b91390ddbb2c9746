#![tactic(auto)]
//! The jobs of a game's tree, and the rows of its sequence form: for each sequence the sum over its leaves.

mod adding;
mod both;
mod cutting;
mod entry;
mod grouping;
mod groups;
mod input;
mod maker;
mod merging;
mod pace;
mod packing;
mod plain;
mod roll;
mod row;
mod rows;
mod sharing;
mod sizes;
mod spare;
mod table;
mod threaded;
mod touching;
mod writing;

pub use both::sum_group;
pub use entry::{GroupEntries, GroupEntry};
pub use groups::PairGroups;
pub use input::RowInput;
pub use maker::RowMaker;
pub use plain::PlainRows;
pub use row::{Row, add_product, put};
pub use rows::{Rows, SmallRows};
pub use sizes::{greatest_number, sums_fit_word, total_mass};
pub use table::JobTable;
pub use threaded::ThreadedRows;
