//! Hashing by the bytes of a file.

use std::hash::{BuildHasher, DefaultHasher, FoldHasher, Hasher};

/// Makes hashers that begin with what a file's bytes make.
///
/// The numbers of the file are among these bytes, so numbers can't be picked by a seed without changing it. Whether
/// such a file can be found all the same is no matter of proof.
#[derive(Clone, Copy)]
pub(crate) struct Seed {
    initial: FoldHasher,
}

impl Seed {
    /// The seed that all bytes of a file make.
    pub(crate) fn of(file: &[u8]) -> Seed {
        let mut digest = DefaultHasher::new();
        digest.write(file);
        let mut initial = FoldHasher::default();
        initial.write_u64(digest.finish());
        Seed { initial }
    }
}

impl BuildHasher for Seed {
    type Hasher = FoldHasher;

    ghost build_hasher = { λ s. s.initial };

    fn build_hasher(&self) -> FoldHasher {
        self.initial
    }
}
