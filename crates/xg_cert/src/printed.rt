//! Plans and replies as a certificate has them.
ghost use Rattle.std.specs.Prelude.{◌≡◌, ◌-◌, ◌≤◌, [], drop, length, slice_index_or, take};
ghost use Rattle.def_cert_verdict.specs.Certificate.{printed_numbers};
ghost use Rattle.def_reply.specs.Reply.{choices_of, values_of};

use std::marker::Model;

/// The numbers of a player's sequences: the root first, then set after set. Each set's numbers end where those of the
/// next one start.
#[derive(Drop)]
pub(crate) struct PlanLines {
    pub(crate) numbers: Vec<u64>,
    pub(crate) starts: Vec<usize>,
}

impl Model for PlanLines {
    ghost use Rattle.def_cert_verdict.specs.Certificate.{PrintedPlan};
    ghost use Rattle.xg_cert.specs.Printed.{IsPlanOf, plan_of};

    ghost Value = { PrintedPlan };

    ghost view = { λ p. plan_of p.numbers.items p.starts.items };

    ghost invariant = { λ p. IsPlanOf p.numbers.items p.starts.items };
}

impl PlanLines {
    /// The number of the empty sequence.
    pub(crate) fn root(&self) -> u64
        ensures { result ≡ self.now.root }
    {
        self.numbers[0]
    }

    /// The numbers of all sequences, the root first.
    pub(crate) fn numbers(&self) -> &[u64]
        ensures { result.now ≡ printed_numbers self.now }
    {
        &self.numbers
    }

    /// The numbers of a set's sequences.
    pub(crate) fn weights(&self, set: u32) -> &[u64]
        requires from_one { 1 ≤ set }
        requires there { set ≤ length self.now.weights }
        ensures { result.now ≡ slice_index_or self.now.weights (set - 1) [] }
    {
        let set = set as usize;
        between(&self.numbers, self.starts[set - 1], self.starts[set])
    }
}

fn between(numbers: &[u64], start: usize, end: usize) -> &[u64]
    requires rise { start ≤ end }
    requires within { end ≤ length numbers.now }
    ensures { result.now ≡ take (end - start) (drop start numbers.now) }
{
    &numbers[start..end]
}

/// A reply: its total, and a value and a choice for each set.
#[derive(Drop)]
pub(crate) struct ReplyLines {
    pub(crate) total: i128,
    pub(crate) values: Vec<i128>,
    pub(crate) choices: Vec<u32>,
}

impl Model for ReplyLines {
    ghost use Rattle.std.specs.Prelude.{◌≡◌, length};
    ghost use Rattle.def_reply.specs.Reply.{Reply};
    ghost use Rattle.xg_plan.specs.Reply.{set_replies};

    ghost Value = { Reply };

    ghost view = { λ r. record { total = r.total; sets = set_replies r.values.items r.choices.items } };

    ghost invariant = { λ r. length r.choices.items ≡ length r.values.items };
}

impl ReplyLines {
    /// The worth of the empty sequence.
    pub(crate) fn total(&self) -> i128
        ensures { result ≡ self.now.total }
    {
        self.total
    }

    /// The values of all sets.
    pub(crate) fn values(&self) -> &[i128]
        ensures { result.now ≡ values_of self.now.sets }
    {
        &self.values
    }

    /// The choices at all sets.
    pub(crate) fn choices(&self) -> &[u32]
        ensures { result.now ≡ choices_of self.now.sets }
    {
        &self.choices
    }
}
