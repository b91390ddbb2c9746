//! The search of plans, as far as it's asked.
ghost use Rattle.std.specs.Prelude.{◌≡◌, ◌↔◌, ◌≤◌, ◌*◌, ◌^◌, IsTrue, Option, unsigned_abs};
ghost use Rattle.def_sums.specs.Limits.{most_root, most_row};
ghost use Rattle.def_close.specs.Narrow.{AreAsNarrow};
ghost use Rattle.xg_close_words.specs.Limits.{IsWithinRounds};
ghost use Rattle.xg_io.specs.Calls.{sink_call};
ghost use Rattle.xg_search.specs.Searches.{IsSearchOf, high_of, low_of};
ghost use Rattle.xg_close_run.specs.Said.{SaysProgress};
ghost use Rattle.xg_close_run.specs.Searched.{CanBeSearched, IsSmallWidth, IsTrueOf, width_of};
ghost use Rattle.xg_close_run.specs.Widths.{IsShown};
ghost use Rattle.xg_close_lines.specs.Texts.{asked_text, standing_of};
ghost use Rattle.def_fraction.specs.Fraction.{Fraction, fraction_of};

use crate::width::{Width, gap, is_narrow};
use xg_close_lines::{Progress, write_progress};
use xg_close_numbers::rounded_up;
use xg_close_words::Asked;
use xg_frac::{Ratio, ratio};
use xg_io::Sink;
use xg_jobs::JobTable;
use xg_search::Search;
use xg_seq::SeqForm;

/// The root of the plans.
const ROOT: u128 = 1 << 36;

/// A game whose plans are searched: its form, the table of its leaves, and the unit of its payoffs.
#[derive(Clone, Copy)]
pub(crate) struct SearchedGame<'a> {
    pub(crate) form: &'a SeqForm,
    pub(crate) jobs: &'a JobTable,
    pub(crate) unit: u64,
}

impl SearchedGame<'_> {
    ghost use Rattle.xg_close_run.specs.Searched.{CanBeSearched};

    /// By what the totals of a search are divided.
    fn scale(&self) -> u128
        requires { CanBeSearched self.now }
        ensures scale { result ≡ self.now.unit * most_root }
        ensures some { 1 ≤ result }
        ensures small { result ≤ 2 ^ 98 }
    {
        self.unit as u128 * ROOT
    }

    /// Whether the bracket of a search is as narrow as asked.
    pub(crate) fn is_closed(&self, width: &Width, search: &Search) -> bool
        requires game { CanBeSearched self.now }
        requires width { IsSmallWidth width.now }
        requires search { IsSearchOf self.now.form.now search.now }
        ensures { IsTrue result ↔ AreAsNarrow (width_of width.now) (self.now.unit * most_root)
            (low_of search.now) (high_of search.now) }
    {
        self.form.facts();
        is_narrow(width, search.low(), search.high(), self.scale())
    }

    /// Says how a search stands, unless it's to be quiet. Answers whether `err` took it.
    fn tell<E: Sink>(
        &self,
        asked: &Asked<'_>,
        width: &Width,
        rounds: u32,
        search: &Search,
        err: &mut E,
    ) -> bool
        requires game { CanBeSearched self.now }
        requires search { IsSearchOf self.now.form.now search.now }
        requires shown { IsShown asked.now.width (asked_text width.now.shown) }
        ensures said { SaysProgress (IsTrueOf self.now asked.now.width) asked.now.quiet result
            (sink_call E.Sink err.old err.new) }
        ensures quiet { IsTrue asked.now.quiet → err.new ≡ err.old }
        ensures heard { IsTrue asked.now.quiet → IsTrue result }
    {
        if asked.quiet {
            return true;
        }
        let progress = self.progress(width, rounds, search);
        write_progress(&progress, err).is_ok()
    }

    /// How a search stands.
    fn progress(&self, width: &Width, rounds: u32, search: &Search) -> Progress
        requires game { CanBeSearched self.now }
        requires search { IsSearchOf self.now.form.now search.now }
        ensures { (asked : Option Fraction) → IsShown asked (asked_text width.now.shown)
            → IsTrueOf self.now asked (standing_of result) }
    {
        self.form.facts();
        let scale = self.scale();
        let (low, high) = (search.low(), search.high());
        Progress {
            rounds,
            width: rounded_up(gap(low, high), scale),
            asked: width.shown,
            low: bound(low, scale),
            high: bound(high, scale),
        }
    }
}

/// A total of a reply in payoff units.
fn bound(total: i128, scale: u128) -> Ratio
    requires total { unsigned_abs total ≤ most_row }
    requires some { 1 ≤ scale }
    requires small { scale ≤ 2 ^ 98 }
    ensures { result ≡ fraction_of total scale }
{
    ratio(total, scale as i128)
}

/// Plays rounds until the bracket is as narrow as asked, or all rounds are played. Answers whether `err` took all that
/// was said of the progress.
pub(crate) fn search_on<E: Sink>(
    asked: &Asked<'_>,
    width: &Width,
    game: &SearchedGame<'_>,
    search: &mut Search,
    err: &mut E,
) -> bool
    requires rounds { IsWithinRounds asked.now.rounds }
    requires width { IsSmallWidth width.now }
    requires shown { IsShown asked.now.width (asked_text width.now.shown) }
    requires game { CanBeSearched game.now }
    requires search { IsSearchOf game.now.form.now search.old }
    ensures search { IsSearchOf game.now.form.now search.new }
    ensures said { SaysProgress (IsTrueOf game.now asked.now.width) asked.now.quiet result
        (sink_call E.Sink err.old err.new) }
    ensures quiet { IsTrue asked.now.quiet → err.new ≡ err.old }
{
    let mut is_heard = true;
    let mut left = asked.rounds;
    while left > 0 && !game.is_closed(width, search) {
        left -= search.advance(game.form, game.jobs, left);
        is_heard = is_heard && game.tell(asked, width, asked.rounds - left, search, err);
    }
    is_heard
}
