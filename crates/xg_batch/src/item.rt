//! What becomes of a file.
use xg_engine::Engine;
use xg_read::FileFault;

/// What becomes of a file of a batch.
#[derive(Drop)]
pub enum Item {
    /// Its game is accepted, and its rounds are played.
    Solved(Engine),
    /// It has this first fault.
    Refused(FileFault),
}
