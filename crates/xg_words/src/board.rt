//! The board of a round whose rows are atomic words.
ghost use Rattle.std.specs.Prelude.{◌≡◌, ℕ, ◌<◌, ◌≤◌, ◌+◌, ◌-◌, ◌*◌, ◌++◌, List, [], ◌∷◌, All, Contains, IfOk};
ghost use Rattle.std.specs.Prelude.{MatchOption};
ghost use Rattle.std.specs.Prelude.{length, pos, slice_index_or};
ghost use Rattle.def_sums.specs.Limits.{most_workers};
ghost use Rattle.def_plan.specs.Form.{sequence_count};
ghost use Rattle.def_plan.specs.FormRows.{row_count};
ghost use Rattle.def_history.specs.History.{sum_over_jobs};
ghost use Rattle.def_history.specs.Packets.{IsPacketOf};
ghost use Rattle.def_words.specs.Amounts.{HaveRoom, LastIsComplete, IsNext};
ghost use Rattle.xg_jobs.specs.Rows.{all_rows};
ghost use Rattle.xg_jobs.specs.Table.{IsTableOf};
ghost use Rattle.xg_words.specs.Holdings.{AreLeft, reached_after};

use crate::counts::Counts;
use crate::owner::Owner;
use crate::total::total;
use crate::worker::Worker;
use def_tree::Player;
use std::alloc::{AllocError, Global};
use xg_atomic::{WordTable, add, claim, close, join, open, split};
use xg_jobs::{JobTable, Rows};
use xg_rowcore::{Packet, RowName};
use xg_seq::SeqForm;

/// The rows of one round as atomic words, for workers that claim jobs and add what these bring.
///
/// Every call waits for nobody, and only `open` takes memory.
#[derive(Drop)]
pub struct WordBoard<N: RowName> {
    pub(crate) table: WordTable<N>,
    pub(crate) rows: Rows,
    pub(crate) counts: Counts<N>,
    ghost slots_are: { table.shared.table_id.slots ≡ 0 },
    ghost words_are: { table.shared.table_id.words ≡ 2 * counts.rows + 1 },
    ghost rows_are: { length (all_rows rows) ≡ counts.rows },
}

impl<N: RowName> WordBoard<N> {
    /// Opens a board of these jobs for the form's rows: nothing is claimed and nothing is added yet.
    pub fn open(
        alloc: Global,
        form: &SeqForm,
        jobs: &JobTable,
    ) -> Result<(WordBoard<N>, Owner<N>), AllocError>
        requires built { IsTableOf form.now jobs.now }
        requires jobs { length jobs.now.ranges ≡ N.jobs }
        requires rows { row_count form.now ≡ N.rows }
        requires room { HaveRoom N.jobs N.rows N.amount }
        ensures one { IfOk result (λ opened. length opened.0.rows.one ≡ sequence_count form.now.sets_one) }
        ensures owner { IfOk result
            (λ opened. opened.1
            ≡ record { table = opened.0.table.shared.table_id; numbers = []; made = 0; unjoined = 0 }) }
    {
        let rows = Rows::new(alloc, form)?;
        let one = form.sequence_count(Player::One);
        let two = form.sequence_count(Player::Two);
        let count = one + two;
        let (table, owner) = open_words::<N>(alloc, count)?;
        let board = WordBoard {
            table,
            rows,
            counts: Counts::of(jobs.count(), count),
        };
        Ok((board, owner))
    }

    /// Makes a worker, which has claimed nothing.
    pub fn worker(&self, owner: &mut Owner<N>) -> Worker<N>
        requires here { owner.old.table ≡ self.now.table.shared.table_id }
        requires few { owner.old.made < most_workers }
        ensures worker { result ≡ record { table = owner.old.table; numbers = []; reached = 0 } }
        ensures owner { owner.new ≡ record {
          table = owner.old.table;
          numbers = owner.old.numbers;
          made = owner.old.made + 1;
          unjoined = owner.old.unjoined + 1;
        } }
    {
        Worker::of(split::<N>(&self.table.shared, &mut owner.seat))
    }

    /// Claims the next number, and answers it where it is a job's. The number joins the worker's list either way.
    pub fn claim(&self, worker: &mut Worker<N>) -> Option<u32>
        requires here { worker.old.table ≡ self.now.table.shared.table_id }
        requires below { All (λ n. n < N.jobs) worker.old.numbers }
        requires complete { LastIsComplete N.jobs N.rows N.amount worker.old.reached worker.old.numbers }
        ensures { (n : ℕ)
            × (worker.new ≡ record { table = worker.old.table; numbers = n ∷ worker.old.numbers; reached = 0 })
            × MatchOption result (N.jobs ≤ n) (λ job. (job ≡ n) × (n < N.jobs)) }
    {
        let number = claim::<N>(&self.table.shared, &mut worker.seat);
        if number < u64::from(self.counts.jobs) {
            Some(number as u32)
        } else {
            None
        }
    }

    /// Adds the packet of the worker's last job, of which nothing is added yet: one step for each entry that isn't 0.
    pub fn add(&self, worker: &mut Worker<N>, packet: &Packet)
        requires here { worker.old.table ≡ self.now.table.shared.table_id }
        requires last { (earlier : List ℕ) × (worker.old.numbers ≡ packet.now.job ∷ earlier) }
        requires none_added { worker.old.reached ≡ 0 }
        requires job { packet.now.job < N.jobs }
        requires packet { IsPacketOf N.amount N.rows packet.now.job packet.now.entries.list }
        ensures same { (worker.new.table ≡ worker.old.table) × (worker.new.numbers ≡ worker.old.numbers) }
        ensures complete { LastIsComplete N.jobs N.rows N.amount worker.new.reached worker.new.numbers }
    {
        for i in 0..packet.len() {
            self.add_entry(worker, packet, i);
        }
    }

    /// Joins a worker that is done: the owner takes its numbers.
    pub fn join(&self, owner: &mut Owner<N>, worker: Worker<N>)
        requires owner { owner.old.table ≡ self.now.table.shared.table_id }
        requires worker { worker.table ≡ self.now.table.shared.table_id }
        requires complete { LastIsComplete N.jobs N.rows N.amount worker.reached worker.numbers }
        ensures { owner.new ≡ record {
          table = owner.old.table;
          numbers = worker.numbers ++ owner.old.numbers;
          made = owner.old.made;
          unjoined = owner.old.unjoined - 1;
        } }
    {
        join::<N>(&self.table.shared, &mut owner.seat, worker.into_seat());
    }

    /// Closes the board where every worker was joined and some number past the jobs was claimed, and answers at each
    /// row the sum of all jobs' amounts.
    pub fn close(self, owner: Owner<N>) -> Rows
        requires here { owner.table ≡ self.table.shared.table_id }
        requires all_joined { owner.unjoined ≡ 0 }
        requires past { (n : ℕ) × Contains owner.numbers n × (N.jobs ≤ n) }
        ensures one { length result.one ≡ length self.rows.one }
        ensures count { length (all_rows result) ≡ N.rows }
        ensures sums { (row : ℕ) → row < N.rows → slice_index_or (all_rows result) row (pos 0)
            ≡ sum_over_jobs N.amount N.jobs row }
    {
        let WordBoard {
            table,
            mut rows,
            counts,
        } = self;
        let closed = close::<N>(table, owner.into_seat());
        for row in 0..counts.rows {
            rows.put(row, total(&closed, row));
        }
        closed.free();
        rows
    }

    // Adds an entry of the packet.
    fn add_entry(&self, worker: &mut Worker<N>, packet: &Packet, i: usize)
        requires here { worker.old.table ≡ self.now.table.shared.table_id }
        requires last { (earlier : List ℕ) × (worker.old.numbers ≡ packet.now.job ∷ earlier) }
        requires job { packet.now.job < N.jobs }
        requires packet { IsPacketOf N.amount N.rows packet.now.job packet.now.entries.list }
        requires there { i < length packet.now.entries.list }
        requires left { AreLeft N.amount N.rows packet.now.job packet.now.entries.list i worker.old.reached }
        ensures same { (worker.new.table ≡ worker.old.table) × (worker.new.numbers ≡ worker.old.numbers) }
        ensures left { AreLeft N.amount N.rows packet.now.job packet.now.entries.list (i + 1) worker.new.reached }
    {
        let (row, amount) = packet.entry(i);
        self.add_amount(worker, row, amount);
    }

    // Adds the next amount of the worker's last job, if it isn't 0.
    fn add_amount(&self, worker: &mut Worker<N>, row: u32, amount: i128)
        requires here { worker.old.table ≡ self.now.table.shared.table_id }
        requires row { row < N.rows }
        requires next { IsNext N.jobs N.amount row amount worker.old.reached worker.old.numbers }
        ensures same { (worker.new.table ≡ worker.old.table) × (worker.new.numbers ≡ worker.old.numbers) }
        ensures reached { worker.new.reached ≡ reached_after row amount worker.old.reached }
    {
        if amount != 0 {
            add::<N>(&self.table.shared, &mut worker.seat, row, amount);
        }
    }
}

// A table whose words are all 0, with its owner.
fn open_words<N: RowName>(alloc: Global, rows: u32) -> Result<(WordTable<N>, Owner<N>), AllocError>
    requires { rows ≡ N.rows }
    ensures table { IfOk result
        (λ opened. (opened.0.shared.table_id.words ≡ 2 * N.rows + 1) × (opened.0.shared.table_id.slots ≡ 0)) }
    ensures owner { IfOk result
        (λ opened. opened.1 ≡ record { table = opened.0.shared.table_id; numbers = []; made = 0; unjoined = 0 }) }
{
    let zeros = vec![in alloc; 0u64; 2 * rows as usize + 1]?;
    let (table, seat) = open::<N>(alloc, &zeros)?;
    Ok((table, Owner::of(seat)))
}
