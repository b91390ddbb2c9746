//! Where a run's rows come from.
ghost use Rattle.std.specs.Prelude.{◌≡◌, ◌↔◌, IfOk, IsTrue, length};
ghost use Rattle.std.specs.Thread.{IsSync};
ghost use Rattle.def_plan.specs.Form.{sequence_count};
ghost use Rattle.xg_jobs.specs.Rows.{AreNumbersOf, ArePlainSums, HaveSmallRows};
ghost use Rattle.xg_jobs.specs.Table.{Serves};
ghost use Rattle.xg_engine.specs.Players.{IsSmallPlan};
ghost use Rattle.xg_engine.specs.Sources.{CanMakeRows};

use std::alloc::{AllocError, Global};
use std::sync::Wait;
use std::thread::Threads;
use xg_jobs::{JobTable, RowInput, RowMaker, Rows, SmallRows};
use xg_plan::Plan;
use xg_seq::SeqForm;

/// Where a run gets the rows of its game from.
#[derive(Drop)]
pub(crate) struct RowSource<'a, Rt, M> {
    pub(crate) rt: &'a Rt,
    pub(crate) alloc: Global,
    pub(crate) form: &'a SeqForm,
    pub(crate) jobs: &'a JobTable,
    pub(crate) maker: &'a M,
}

impl<'a, Rt: Threads + Wait + Sync, M: RowMaker> RowSource<'a, Rt, M> {
    /// The source of a form's rows, with the table of its jobs.
    pub(crate) fn new(
        rt: &'a Rt,
        alloc: Global,
        form: &'a SeqForm,
        jobs: &'a JobTable,
        maker: &'a M,
    ) -> RowSource<'a, Rt, M>
        requires sync { IsSync Rt.row }
        requires can { M.can_make maker.now }
        requires table { Serves (M.by_packets maker.now) form.now jobs.now }
        ensures source { CanMakeRows Rt.row M.RowMaker result }
        ensures form { result.form.now ≡ form.now }
    {
        form.facts();
        RowSource {
            rt,
            alloc,
            form,
            jobs,
            maker,
        }
    }

    /// The leaf sums of each player's sequences against the other player's plan.
    pub(crate) fn rows(&self, one: &Plan, two: &Plan) -> Result<Rows, AllocError>
        requires source { CanMakeRows Rt.row M.RowMaker self.now }
        requires plan_one { IsSmallPlan self.now.form.now.sets_one one.now }
        requires plan_two { IsSmallPlan self.now.form.now.sets_two two.now }
        ensures { IfOk result (λ rows. ArePlainSums self.now.form.now one.now two.now rows) }
    {
        self.maker
            .rows(self.rt, self.alloc, &self.input(one, two), self.jobs)
    }

    /// The same in 64 bits, if the maker makes them and it is known that they have room. Takes no memory.
    pub(crate) fn small_rows(&self, one: &Plan, two: &Plan, rows: &mut SmallRows) -> bool
        requires source { CanMakeRows Rt.row M.RowMaker self.now }
        requires plan_one { IsSmallPlan self.now.form.now.sets_one one.now }
        requires plan_two { IsSmallPlan self.now.form.now.sets_two two.now }
        requires rows_one { length rows.old.one ≡ sequence_count self.now.form.now.sets_one }
        requires rows_two { length rows.old.two ≡ sequence_count self.now.form.now.sets_two }
        ensures small { IsTrue result ↔ (IsTrue (M.makes_small self.now.maker.now)
            × HaveSmallRows self.now.form.now one.now two.now) }
        ensures sums { IsTrue result → ArePlainSums self.now.form.now one.now two.now rows.new }
        ensures count_one { length rows.new.one ≡ length rows.old.one }
        ensures count_two { length rows.new.two ≡ length rows.old.two }
    {
        self.maker
            .small_rows(self.rt, &self.input(one, two), self.jobs, rows)
    }

    /// Whether it pays to start a thread for work on one of the players.
    pub(crate) fn has_idle_threads(&self) -> bool {
        self.maker.has_idle_threads()
    }

    // What rows against these plans are made from.
    fn input<'b>(&'b self, one: &'b Plan, two: &'b Plan) -> RowInput<'b>
        requires plan_one { IsSmallPlan self.now.form.now.sets_one one.now }
        requires plan_two { IsSmallPlan self.now.form.now.sets_two two.now }
        ensures form { result.form.now ≡ self.now.form.now }
        ensures one { result.one.now ≡ one.now }
        ensures two { result.two.now ≡ two.now }
        ensures numbers { AreNumbersOf result.form.now result.one.now result.two.now }
    {
        RowInput {
            form: self.form,
            one: one.weights(),
            two: two.weights(),
        }
    }
}
