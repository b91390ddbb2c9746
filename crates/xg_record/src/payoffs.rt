//! The payoffs of an outcome.
ghost use Rattle.std.specs.Prelude.{◌≡◌, ◌<◌, [], ◌∷◌, ◌++◌, Some, length, slice_get, OnOk, OnErr};

use std::alloc::{AllocError, Global};
use std::marker::Model;
use xg_frac::Frac;

/// The payoffs of an outcome, of player one first.
#[derive(Drop)]
pub struct Payoffs {
    payoffs: Vec<Frac>,
}

impl Model for Payoffs {
    ghost use Rattle.std.specs.Prelude.{List};
    ghost use Rattle.def_fraction.specs.Fraction.{Fraction};

    ghost Value = { List Fraction };

    ghost view = { λ p. p.payoffs.items };
}

impl Payoffs {
    /// No payoffs.
    pub fn new(alloc: Global) -> Payoffs
        ensures { result ≡ [] }
    {
        Payoffs {
            payoffs: Vec::new(alloc),
        }
    }

    /// Puts a payoff last.
    pub fn push(&mut self, payoff: Frac) -> Result<(), AllocError>
        ensures ok { OnOk result (self.new ≡ self.old ++ payoff ∷ []) }
        ensures err { OnErr result (self.new ≡ self.old) }
    {
        self.payoffs.push(payoff)?;
        Ok(())
    }

    /// Takes all payoffs out. Their memory stays, for those that come next.
    pub fn clear(&mut self)
        ensures { self.new ≡ [] }
    {
        self.payoffs.clear();
    }

    /// How many payoffs there are.
    pub fn len(&self) -> usize
        ensures { result ≡ length self.now }
    {
        self.payoffs.len()
    }

    /// The payoff at `i`, which counts from 0.
    pub fn get(&self, i: usize) -> Frac
        requires { i < length self.now }
        ensures { slice_get self.now i ≡ Some result }
    {
        self.payoffs[i]
    }
}
