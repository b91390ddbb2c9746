//! The outcomes of a game.
ghost use Rattle.std.specs.Prelude.{◌≡◌, ◌+◌, ◌<◌, ◌^◌, [], ◌∷◌, ◌++◌, length, option_map, slice_set, unwrap_or, None};
ghost use Rattle.std.specs.Prelude.{OnErr, OnOk, IfSome};
ghost use Rattle.def_file.specs.Adding as adding;
ghost use Rattle.def_file.specs.Content.{OutcomeEntry, outcome_mention};
ghost use Rattle.def_file.specs.Faults as faults;
ghost use Rattle.def_file.specs.Game.{IsSmallFraction};
ghost use Rattle.xg_game.specs.Outcomes.{HaveSmallPayoffs};
ghost use Rattle.xg_game.specs.Places.{place_of_outcome};
ghost use Rattle.xg_record.specs.Entry.{entry_seen};

use crate::given::{name_differs, same_value};
use crate::table::{Described, NumberTable};
use std::alloc::{AllocError, Global};
use std::marker::Model;
use xg_frac::{Frac, zero};
use xg_lex::TextView;
use xg_record::{EntryView, Payoffs, view_again};

/// The payoffs of both players.
#[derive(Clone, Copy)]
pub(crate) struct PayoffPair {
    pub(crate) one: Frac,
    pub(crate) two: Frac,
}

/// What is known of an outcome: the first name that is given, and the payoffs of the first mention.
pub(crate) type OutcomeDescription = Described<PayoffPair>;

/// The outcomes by their numbers in the file, in the order of their first mentions. Outcome 0 isn't among them.
#[derive(Drop)]
pub(crate) struct OutcomeTable {
    outcomes: NumberTable<PayoffPair>,
}

impl Model for OutcomeTable {
    ghost use Rattle.std.specs.Prelude.{List, map};
    ghost use Rattle.def_file.specs.Content.{OutcomeEntry};

    ghost Value = { List OutcomeEntry };

    ghost use Rattle.xg_game.specs.Outcomes.{HaveSmallPayoffs, outcome_entry_of};

    ghost view = { λ t. map outcome_entry_of t.outcomes };

    ghost invariant = { λ t. HaveSmallPayoffs (map outcome_entry_of t.outcomes) };
}

impl OutcomeTable {
    /// No outcomes.
    pub(crate) fn new(alloc: Global) -> OutcomeTable
        ensures { result ≡ [] }
    {
        OutcomeTable {
            outcomes: NumberTable::new(alloc),
        }
    }

    /// How many outcomes there are.
    pub(crate) fn len(&self) -> usize
        ensures { result ≡ length self.now }
    {
        self.outcomes.len()
    }

    /// Each payoff is in lowest terms and within the limit: what the type keeps.
    pub(crate) fn payoffs_are_small(&self)
        ensures { HaveSmallPayoffs self.now }
    {
        let _count = self.outcomes.len();
    }

    /// Where the outcome of this number is.
    #[inline(always)]
    pub(crate) fn find(&self, number: u64) -> Option<usize>
        ensures place { result ≡ faults.outcome_place_of number self.now }
        ensures within { IfSome result (λ i. i < length self.now) }
    {
        self.outcomes.find(number)
    }

    /// The number in the file of the outcome at `i`.
    pub(crate) fn number(&self, i: usize) -> u64
        requires { i < length self.now }
        ensures { result ≡ (faults.outcome_at self.now i).number }
    {
        self.outcomes.number(i)
    }

    /// What is known of the outcome at `i`.
    #[inline(always)]
    pub(crate) fn get(&self, i: usize) -> &OutcomeDescription
        requires { i < length self.now }
        ensures name { result.now.name ≡ (faults.outcome_at self.now i).name }
        ensures one { result.now.value.one ≡ (faults.outcome_at self.now i).one }
        ensures two { result.now.value.two ≡ (faults.outcome_at self.now i).two }
    {
        self.outcomes.get(i)
    }

    /// Whether the entry has another name or other payoffs than are kept of its outcome.
    #[inline(always)]
    pub(crate) fn differs(&self, entry: &EntryView<'_>, place: Option<usize>) -> bool
        requires { place ≡ place_of_outcome entry.now.outcome self.now }
        ensures { result ≡ faults.outcome_differs self.now (entry_seen entry.now).outcome }
    {
        if entry.outcome == 0 {
            return payoffs_differ(zero(), zero(), entry.payoffs);
        }
        match place {
            Some(i) => {
                let kept = self.get(i);
                name_differs(&kept.name, &entry.outcome_name)
                    || payoffs_differ(kept.value.one, kept.value.two, entry.payoffs)
            }
            None => false,
        }
    }

    /// Whether the entry is the first to mention its outcome, and has other than two payoffs.
    #[inline(always)]
    pub(crate) fn is_miscounted(&self, entry: &EntryView<'_>, place: Option<usize>) -> bool
        requires { place ≡ place_of_outcome entry.now.outcome self.now }
        ensures { result ≡ faults.is_outcome_miscounted self.now (entry_seen entry.now).outcome }
    {
        entry.outcome != 0
            && place.is_none()
            && match entry.payoffs {
                Some(payoffs) => payoffs.len() != 2,
                None => false,
            }
    }

    /// The number of the entry's outcome among those of the table, which count from 1.
    #[inline(always)]
    pub(crate) fn number_with(&self, entry: &EntryView<'_>, place: Option<usize>) -> u32
        requires place { place ≡ place_of_outcome entry.now.outcome self.now }
        requires room { length self.now + 1 < 2 ^ 32 }
        ensures { result ≡ adding.outcome_number self.now (entry_seen entry.now).outcome }
    {
        if entry.outcome == 0 {
            return 0;
        }
        place.unwrap_or(self.len()) as u32 + 1
    }

    /// Notes a mention of an outcome.
    #[inline(always)]
    pub(crate) fn note(
        &mut self,
        alloc: Global,
        file: &[u8],
        place: Option<usize>,
        number: u64,
        name: &Option<TextView<'_>>,
        payoffs: Option<&Payoffs>,
    ) -> Result<(), AllocError>
        requires place { place ≡ place_of_outcome number self.old }
        requires room { length self.old + 1 < 2 ^ 32 }
        ensures { let mention = outcome_mention number name.now (option_map (λ p. p.now) payoffs.entry) in
            OnOk result (self.new ≡ adding.noted_outcome self.old mention) }
    {
        if number == 0 {
            return Ok(());
        }
        match place {
            Some(i) => self.outcomes.name(alloc, i, name),
            None => self.add(alloc, file, number, &view_again(name), payoffs),
        }
    }

    /// Puts an outcome last.
    #[inline(never)]
    fn add(
        &mut self,
        alloc: Global,
        file: &[u8],
        number: u64,
        name: &Option<TextView<'_>>,
        payoffs: Option<&Payoffs>,
    ) -> Result<(), AllocError>
        requires new { faults.outcome_place_of number self.old ≡ None }
        requires room { length self.old + 1 < 2 ^ 32 }
        ensures { let mention = outcome_mention number name.now (option_map (λ p. p.now) payoffs.entry) in
            OnOk result (self.new ≡ self.old ++ adding.new_outcome mention ∷ []) }
    {
        let one = payoff_at(payoffs, 0);
        let two = payoff_at(payoffs, 1);
        self.outcomes
            .push(alloc, file, number, name, PayoffPair { one, two })
    }
}

/// The payoff at `i`, which counts from 0, or 0 where there is none.
fn payoff_at(payoffs: Option<&Payoffs>, i: usize) -> Frac
    ensures exact { let given = option_map (λ p. p.now) payoffs.entry in
        result ≡ adding.nth_payoff (unwrap_or given []) i }
    ensures small { IsSmallFraction result }
{
    match payoffs {
        Some(payoffs) if i < payoffs.len() => known(payoffs.get(i)),
        _ => known(zero()),
    }
}

/// Whether payoffs are given that differ in their number or a value from those that are kept.
#[inline(always)]
fn payoffs_differ(one: Frac, two: Frac, given: Option<&Payoffs>) -> bool
    ensures { let kept = record faults.null_outcome { one = one; two = two } in
        result ≡ faults.payoffs_differ kept (option_map (λ p. p.now) given.entry) }
{
    match given {
        Some(given) => {
            given.len() != 2 || !same_value(one, given.get(0)) || !same_value(two, given.get(1))
        }
        None => false,
    }
}

/// The fraction, of which this is known.
pub(crate) fn known(number: Frac) -> Frac
    ensures same { result ≡ number }
    ensures small { IsSmallFraction number }
{
    number.facts();
    number
}
