//! What the seats of a table of atomic words know.
use std::collections::LinkedList;

/// What a seat knows. No value of it is made.
#[derive(Drop)]
pub enum View {
    /// The numbers of the workers that were joined in, how many workers were ever made, and how many of these are not
    /// joined yet.
    Owner {
        numbers: LinkedList<u64>,
        made: u64,
        unjoined: u64,
    },
    /// The numbers that were claimed, the last one first, and the row below which the last one's amounts are added.
    Worker {
        numbers: LinkedList<u64>,
        reached: u64,
    },
    Spent,
}
