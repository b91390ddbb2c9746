//! What a seat holds and knows.
use std::collections::LinkedList;
use std::marker::Model;

/// The right to add one job into one stripe. No value of it is made.
#[derive(Drop)]
pub struct Right {
    job: u64,
    stripe: u64,
}

impl Model for Right {
    ghost use Rattle.def_history.specs.Core.{Right};

    ghost Value = { Right };

    ghost view = { λ r. record { job = r.job; stripe = r.stripe } };
}

/// What the number of jobs is multiplied by where a number tells jobs and stripes: it is above the most stripes.
pub const CODE_BASE: u64 = 128;

/// What a seat holds and knows. No value of it is made.
///
/// `number` is `CODE_BASE` times the number of jobs plus the number of stripes. `met` is the number of the seat that
/// was joined in last, which a load shows to be the same.
#[derive(Drop)]
pub struct View {
    pub rights: LinkedList<Right>,
    pub tickets: u64,
    pub parts: u64,
    pub number: u64,
    pub met: u64,
}
