//! The numbers of a plan that others learn from.
use std::alloc::{AllocError, Global};
use std::marker::Model;

/// A number of at most 2^36 for each sequence.
#[derive(Drop)]
pub(crate) struct Weights {
    weights: Vec<u64>,
}

impl Model for Weights {
    ghost use Rattle.std.specs.Prelude.{ℕ, ◌≤◌, List, All};
    ghost use Rattle.def_sums.specs.Limits.{most_root};

    ghost Value = { List ℕ };

    ghost view = { λ w. w.weights.items };

    ghost invariant = { λ w. All (λ n. n ≤ most_root) w.weights.items };
}

impl Weights {
    ghost use Rattle.std.specs.Prelude.{◌≡◌, ◌<◌, ◌≤◌, All, IfOk, length};
    ghost use Rattle.def_sums.specs.Limits.{most_root};

    /// So many zeros.
    pub(crate) fn new(alloc: Global, count: usize) -> Result<Weights, AllocError>
        ensures { IfOk result (λ weights. length weights ≡ count) }
    {
        Ok(Weights {
            weights: vec![in alloc; 0u64; count]?,
        })
    }

    /// The number of a sequence.
    pub(crate) fn of(&self, sequence: usize) -> u64
        requires { sequence < length self.now }
        ensures { result ≤ most_root }
    {
        self.weights[sequence]
    }

    /// Puts the number of a sequence.
    pub(crate) fn put(&mut self, sequence: usize, number: u64)
        requires there { sequence < length self.old }
        requires small { number ≤ most_root }
        ensures { length self.new ≡ length self.old }
    {
        self.weights[sequence] = number;
    }

    /// All numbers.
    pub(crate) fn all(&self) -> &[u64]
        ensures same { result.now ≡ self.now }
        ensures small { All (λ n. n ≤ most_root) result.now }
    {
        &self.weights
    }
}
