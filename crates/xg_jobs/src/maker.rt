//! Makers of rows.
ghost use Rattle.std.specs.Prelude.{◌≡◌, ◌↔◌, Bool, IfOk, IsTrue, length};
ghost use Rattle.std.specs.Thread.{IsSync};
ghost use Rattle.def_plan.specs.Form.{sequence_count};
ghost use Rattle.xg_jobs.specs.Rows.{AreNumbersOf, ArePlainSums, HaveSmallRows};
ghost use Rattle.xg_jobs.specs.Table.{HasLeavesOf, Serves};

use crate::input::RowInput;
use crate::rows::{Rows, SmallRows};
use crate::table::JobTable;
use std::alloc::{AllocError, Global};
use std::sync::Wait;
use std::thread::Threads;

/// Who makes a form's rows.
pub trait RowMaker {
    /// What holds of a maker that can make rows. Most ask for nothing; one that calls a closure asks that the closure
    /// may be called, and makes them.
    ghost can_make: { Self → Type 0 };

    /// Whether it makes packets of jobs.
    ghost by_packets: { Self → Bool };

    /// Whether it makes rows of 64 bits.
    ghost makes_small: { Self → Bool };

    /// Whether packets of jobs are made, for which a table has to have the rows of each job.
    fn makes_packets(&self) -> bool
        ensures { result ≡ by_packets self.now };

    /// Whether a thread that is started now is expected to run at once, and each player has so much work that this pays.
    /// What is made is the same with threads and without.
    fn has_idle_threads(&self) -> bool {
        false
    }

    /// The leaf sum of each sequence of the input's form against the other player's numbers, in player one's payoff.
    fn rows<Rt: Threads + Wait + Sync>(
        &self,
        rt: &Rt,
        alloc: Global,
        input: &RowInput<'_>,
        jobs: &JobTable,
    ) -> Result<Rows, AllocError>
        requires sync { IsSync Rt.row }
        requires can { can_make self.now }
        requires numbers { AreNumbersOf input.now.form.now input.now.one.now input.now.two.now }
        requires table { Serves (by_packets self.now) input.now.form.now jobs.now }
        ensures { IfOk result (λ rows. ArePlainSums input.now.form.now input.now.one.now input.now.two.now rows) };

    /// Writes the same sums into rows of 64 bits, if the maker makes such rows and it is known that each sum has room
    /// in them; else what is written means nothing. Takes no memory.
    fn small_rows<Rt: Threads + Sync>(
        &self,
        rt: &Rt,
        input: &RowInput<'_>,
        jobs: &JobTable,
        rows: &mut SmallRows,
    ) -> bool
        requires sync { IsSync Rt.row }
        requires numbers { AreNumbersOf input.now.form.now input.now.one.now input.now.two.now }
        requires table { HasLeavesOf input.now.form.now jobs.now }
        requires rows_one { length rows.old.one ≡ sequence_count input.now.form.now.sets_one }
        requires rows_two { length rows.old.two ≡ sequence_count input.now.form.now.sets_two }
        ensures small { IsTrue result ↔ (IsTrue (makes_small self.now)
            × HaveSmallRows input.now.form.now input.now.one.now input.now.two.now) }
        ensures sums { IsTrue result → ArePlainSums input.now.form.now input.now.one.now input.now.two.now rows.new }
        ensures count_one { length rows.new.one ≡ length rows.old.one }
        ensures count_two { length rows.new.two ≡ length rows.old.two };
}
