//! The files of a batch.
ghost use Rattle.std.specs.Prelude.{◌≡◌};

use std::marker::Model;

/// The bytes of a file.
#[derive(Drop)]
pub struct FileBytes {
    bytes: Vec<u8>,
}

impl Model for FileBytes {
    ghost use Rattle.std.specs.Prelude.{ℕ, List};

    ghost Value = { List ℕ };

    ghost view = { λ f. f.bytes.items };
}

impl FileBytes {
    /// These bytes. Takes no memory.
    pub fn of(bytes: Vec<u8>) -> FileBytes
        ensures { result ≡ bytes.items }
    {
        FileBytes { bytes }
    }

    /// The bytes.
    pub fn bytes(&self) -> &[u8]
        ensures { result.now ≡ self.now }
    {
        &self.bytes
    }
}

/// A file of a batch.
#[derive(Drop)]
pub enum Entry {
    /// Its bytes.
    Bytes(FileBytes),
    /// It has more bytes than there was room for.
    TooLong,
}
