//! The table of a game's jobs.
ghost use Rattle.std.specs.Prelude.{◌≡◌, ◌↔◌, ◌*◌, ◌-◌, ◌^◌, ◌<◌, ◌≤◌, length, max, IfOk, IsTrue, OnErr, OnOk};
ghost use Rattle.std.specs.Prelude.{Some, map, slice_get, slice_index_or};
ghost use Rattle.std.specs.Thread.{IsSync};
ghost use Rattle.def_history.specs.Jobs.{most_jobs};
ghost use Rattle.def_history.specs.Leaves.{amounts};
ghost use Rattle.def_history.specs.Packets.{IsPacketOf};
ghost use Rattle.def_history.specs.JobPackets.{packet_of};
ghost use Rattle.def_history.specs.JobRows.{leaf_amount};
ghost use Rattle.def_plan.specs.Form.{sequence_count};
ghost use Rattle.def_plan.specs.FormRows.{row_count};
ghost use Rattle.xg_jobs.specs.Rows.{AreNumbersOf, ArePlainSums};
ghost use Rattle.xg_rowcore.specs.Chains.{usual_stripes};
ghost use Rattle.xg_touched.specs.Touched.{job_rows};
ghost use Rattle.xg_jobs.specs.Entries.{KeepsGroups, leaves_of_group};
ghost use Rattle.xg_jobs.specs.Grouping.{weights_in};
ghost use Rattle.xg_jobs.specs.Groups.{greatest_of};
ghost use Rattle.xg_jobs.specs.Table.{HasLeavesOf, IsFormOf, IsTableOf, job_table, leaf_table, most_touched};

use crate::cutting::ranges_of;
use crate::groups::{LeafGroups, PairGroups};
use crate::input::RowInput;
use crate::rows::{Rows, SmallRows};
use crate::sizes::sums_fit_word;
use crate::spare::{PAYING_ENTRIES, SpareRows};
use crate::touching::{most_rows, touched_of};
use std::alloc::{AllocError, Global};
use std::marker::{Model, Sync};
use std::thread::Threads;
use xg_rowcore::Packet;
use xg_seq::SeqForm;
use xg_touched::TouchedRows;
use xg_tree::Tree;

/// The jobs of a game: the subtrees below the chance nodes at the top of its tree, each with its leaves.
///
/// Jobs are numbered from 0, and there are at most 4,096. Packets of jobs need the rows of each job, which a table has
/// or hasn't; all else needs none of them.
#[derive(Drop)]
pub struct JobTable {
    ranges: Vec<LeafRange>,
    groups: LeafGroups,
    touched: Vec<TouchedRows>,
}

/// Some leaves in a row: how many come before them, and how many they are.
#[derive(Clone, Copy)]
pub(crate) struct LeafRange {
    pub(crate) first: u32,
    pub(crate) count: u32,
}

impl Model for JobTable {
    ghost use Rattle.std.specs.Prelude.{map};
    ghost use Rattle.def_plan.specs.Form.{sequence_count};
    ghost use Rattle.xg_jobs.specs.Rows.{AreNumbersOf, ArePlainSums};
    ghost use Rattle.xg_jobs.specs.Table.{TableOfJobs};
    ghost use Rattle.xg_jobs.specs.Ranges.{KeepsRanges, range_of};

    ghost Value = { TableOfJobs };

    ghost view = { λ t. record {
      ranges = map range_of t.ranges.items;
      weights = t.groups.weights;
      mass = t.groups.mass;
      touched = t.touched.items;
    } };

    ghost invariant = { λ t. KeepsRanges t.ranges.items };
}

impl JobTable {
    /// The jobs of the tree with their rows, and its leaves by player one's sequence.
    pub fn build(alloc: Global, form: &SeqForm, tree: &Tree) -> Result<JobTable, AllocError>
        requires { IsFormOf form.now tree.now }
        ensures table { IfOk result (λ jobs. jobs ≡ job_table form.now tree.now) }
        ensures whole { IfOk result (λ jobs. IsTableOf form.now jobs) }
    {
        let mut jobs = JobTable::without_rows(alloc, form, tree)?;
        jobs.add_rows(alloc, form)?;
        Ok(jobs)
    }

    /// The same without the rows of the jobs.
    pub fn without_rows(alloc: Global, form: &SeqForm, tree: &Tree) -> Result<JobTable, AllocError>
        requires { IsFormOf form.now tree.now }
        ensures table { IfOk result (λ jobs. jobs ≡ leaf_table form.now tree.now) }
        ensures leaves { IfOk result (λ jobs. HasLeavesOf form.now jobs) }
    {
        let ranges = ranges_of(alloc, tree)?;
        // a table is of a tree that keeps the rules
        tree.facts();
        let groups = LeafGroups::build(alloc, form)?;
        Ok(JobTable {
            ranges,
            groups,
            touched: Vec::new(alloc),
        })
    }

    /// Notes the rows of each job. Where there is no memory for them, the table stays as it was.
    pub fn add_rows(&mut self, alloc: Global, form: &SeqForm) -> Result<(), AllocError>
        requires { HasLeavesOf form.now self.old }
        ensures touched { OnOk result (self.new.touched ≡ map (job_rows form.now) self.old.ranges) }
        ensures whole { OnOk result (IsTableOf form.now self.new) }
        ensures ranges { self.new.ranges ≡ self.old.ranges }
        ensures weights { self.new.weights ≡ self.old.weights }
        ensures mass { self.new.mass ≡ self.old.mass }
        ensures no_memory { OnErr result (self.new ≡ self.old) }
    {
        self.touched = touched_of(alloc, form, &self.ranges)?;
        Ok(())
    }

    /// The number of jobs.
    pub fn count(&self) -> u32
        ensures count { result ≡ length self.now.ranges }

        // What is true of every table.
        ensures limit { result ≤ most_jobs }
    {
        self.ranges.len() as u32
    }

    /// The sizes of all weights of the form together.
    pub fn mass(&self) -> u64
        ensures { result ≡ self.now.mass }
    {
        self.groups.mass
    }

    /// The leaves of the form by player one's sequence.
    pub fn groups(&self) -> PairGroups<'_>
        ensures kept { KeepsGroups result.starts.now (leaves_of_group result.entries.now) result.others self.now.mass }
        ensures weights { weights_in result.starts.now (leaves_of_group result.entries.now) result.others
            ≡ self.now.weights }
    {
        PairGroups {
            starts: &self.groups.starts,
            entries: &self.groups.entries,
            others: self.groups.others,
        }
    }

    /// A job's first leaf, and the number of its leaves.
    pub fn leaves_of(&self, job: u32) -> (u32, u32)
        requires { job < length self.now.ranges }
        ensures from_one { 1 ≤ result.0 }
        ensures leaves { slice_get self.now.ranges job ≡ Some (record { first = result.0 - 1; count = result.1 }) }
    {
        let range = self.ranges[job as usize];
        (range.first + 1, range.count)
    }

    /// The room that a packet of any job needs: the greatest number of rows that the leaves of one job have.
    pub fn room(&self) -> usize
        ensures { result ≡ most_touched self.now.touched }
    {
        most_rows(&self.touched)
    }

    /// Makes the packet of a job: each row whose sequence some leaf of the job has, with the sum over these leaves.
    pub fn packet_into(&self, job: u32, input: &RowInput<'_>, into: &mut Packet)
        requires job { job < length self.now.ranges }
        requires numbers { AreNumbersOf input.now.form.now input.now.one.now input.now.two.now }
        requires table { IsTableOf input.now.form.now self.now }
        requires room { most_touched self.now.touched ≤ into.old.entries.room }
        ensures job { into.new.job ≡ job }
        ensures rows { let range = slice_index_or self.now.ranges job (record { first = 0; count = 0 }) in
            into.new.entries.list ≡ packet_of input.now.form.now input.now.one.now input.now.two.now range }
        ensures packet { let amount = leaf_amount input.now.form.now input.now.one.now input.now.two.now in
            IsPacketOf (amounts amount self.now.ranges) (row_count input.now.form.now) job into.new.entries.list }
        ensures room { into.new.entries.room ≡ into.old.entries.room }
        ensures chained { into.new.entries.chained ≡ usual_stripes }
    {
        let touched = &self.touched[job as usize];
        touched.packet_into(job, input.form, input.one, input.two, into);
    }

    /// Writes the sums over all leaves. Takes no memory.
    pub(crate) fn write_to<Rt: Threads + Sync>(
        &self,
        rt: &Rt,
        input: &RowInput<'_>,
        rows: &mut Rows,
    )
        requires sync { IsSync Rt.row }
        requires numbers { AreNumbersOf input.now.form.now input.now.one.now input.now.two.now }
        requires table { HasLeavesOf input.now.form.now self.now }
        requires rows_one { length rows.old.one ≡ sequence_count input.now.form.now.sets_one }
        requires rows_two { length rows.old.two ≡ sequence_count input.now.form.now.sets_two }
        ensures { ArePlainSums input.now.form.now input.now.one.now input.now.two.now rows.new }
    {
        let Rows { one, two } = rows;
        self.groups.write(rt, input, one, two, &mut []);
    }

    /// The same in 64 bits, if it is known that each sum has room in them; by several threads if there is spare room for
    /// their rows, and that pays.
    pub(crate) fn write_small_to<Rt: Threads + Sync>(
        &self,
        rt: &Rt,
        input: &RowInput<'_>,
        rows: &mut SmallRows,
        spare: Option<&mut SpareRows>,
    ) -> bool
        requires sync { IsSync Rt.row }
        requires numbers { AreNumbersOf input.now.form.now input.now.one.now input.now.two.now }
        requires table { HasLeavesOf input.now.form.now self.now }
        requires rows_one { length rows.old.one ≡ sequence_count input.now.form.now.sets_one }
        requires rows_two { length rows.old.two ≡ sequence_count input.now.form.now.sets_two }
        ensures fits { let most = max (greatest_of input.now.one.now) (greatest_of input.now.two.now) in
            IsTrue result ↔ self.now.mass * most < 2 ^ 63 }
        ensures sums { IsTrue result → ArePlainSums input.now.form.now input.now.one.now input.now.two.now rows.new }
        ensures count_one { length rows.new.one ≡ length rows.old.one }
        ensures count_two { length rows.new.two ≡ length rows.old.two }
    {
        if !sums_fit_word(self.mass(), input.one, input.two) {
            return false;
        }
        let SmallRows { one, two } = rows;
        if let Some(spare) = spare {
            if self.groups.entry_count() >= PAYING_ENTRIES && spare.pace.is_due() {
                let punctual = self.groups.write(rt, input, one, two, &mut spare.rows);
                spare.pace.note(punctual);
                return true;
            }
        }
        self.groups.write(rt, input, one, two, &mut []);
        true
    }
}
