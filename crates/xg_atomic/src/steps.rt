//! The steps on the words.
ghost use Rattle.std.specs.Prelude.{◌≡◌, ◌≢◌, ℕ, ◌<◌, ◌≤◌, ◌+◌, ◌*◌, [], All, Contains, IfOk, replicate};
ghost use Rattle.std.specs.Prelude.{pos, ◌+ℤ◌, unsigned_abs, slice_index};
ghost use Rattle.std.specs.Mem.Slots.{slots_items, slots_len, IsFull};
ghost use Rattle.def_sums.specs.Limits.{most_workers};
ghost use Rattle.def_history.specs.History.{sum_over_jobs};
ghost use Rattle.def_words.specs.Views.{first_view, made_of, new_worker, numbers_of, reached_of, unjoined_of};
ghost use Rattle.def_words.specs.Amounts.{AreSmall, LastIsComplete, IsNext};
ghost use Rattle.def_words.specs.Amounts.{past_sizes, side_of, word_at, positive, negative};
ghost use Rattle.xg_atomic.specs.Seats.{IsOwner, IsWorker, claimed, joined_views, with_row, with_worker};

use crate::rule::{Adds, Claims, Joins, Splits, WordRule};
use atomic_table::{Closed, Seat, Shared, Table};
use def_words::View;
use std::alloc::{AllocError, Global};
use xg_rowcore::RowName;

/// The table with its memory.
pub type WordTable<N> = Table<(), View, (), WordRule<N>, Global>;

/// The part of the table that many threads may use at once.
pub type SharedWords<N> = Shared<(), View, (), WordRule<N>>;

/// A seat of the table.
pub type WordSeat = Seat<(), View>;

/// Makes a table with its first seat, the owner's. All words are 0.
pub fn open<N: RowName>(
    alloc: Global,
    zeros: &[u64],
) -> Result<(WordTable<N>, WordSeat), AllocError>
    requires zeros { zeros.now ≡ replicate (2 * N.rows + 1) 0 }
    ensures table { IfOk result (λ t. (t.0.shared.table_id.words ≡ 2 * N.rows + 1) × (t.0.shared.table_id.slots ≡ 0)) }
    ensures seat { IfOk result (λ t. (t.1.table_id ≡ t.0.shared.table_id) × (t.1.me ≡ (first_view, []))) }
{
    Table::of_words(alloc, zeros, &())
}

/// Claims the number that the claim word has, which grows by 1.
pub fn claim<N: RowName>(table: &SharedWords<N>, seat: &mut WordSeat) -> u64
    requires table { (seat.old.table_id ≡ table.now.table_id) × (0 < table.now.table_id.words) }
    requires small { AreSmall N.jobs N.rows N.amount }
    requires worker { IsWorker seat.old.me }
    requires below { All (λ n. n < N.jobs) (numbers_of seat.old.me.0) }
    requires complete { LastIsComplete N.jobs N.rows N.amount (reached_of seat.old.me.0) (numbers_of seat.old.me.0) }
    ensures same { seat.new.table_id ≡ seat.old.table_id }
    ensures view { seat.new.me ≡ (claimed result seat.old.me.0, []) }
{
    table.fetch_add::<Claims>(seat, 0, 1)
}

/// Adds the next amount of the worker's last job, which isn't 0, to the word of its row and its sign.
pub fn add<N: RowName>(table: &SharedWords<N>, seat: &mut WordSeat, row: u32, amount: i128)
    requires table { (seat.old.table_id ≡ table.now.table_id) × (table.now.table_id.words ≡ 2 * N.rows + 1) }
    requires small { AreSmall N.jobs N.rows N.amount }
    requires worker { IsWorker seat.old.me }
    requires row { row < N.rows }
    requires amount { amount ≢ pos 0 }
    requires next { IsNext N.jobs N.amount row amount (reached_of seat.old.me.0) (numbers_of seat.old.me.0) }
    ensures same { seat.new.table_id ≡ seat.old.table_id }
    ensures view { seat.new.me ≡ (with_row row seat.old.me.0, []) }
{
    table.fetch_add::<Adds>(seat, word_of(row, amount), size_of(amount));
}

// The word of a row for an amount's side.
fn word_of(row: u32, amount: i128) -> usize
    requires { amount ≢ pos 0 }
    ensures { result ≡ word_at (side_of amount) row }
{
    if amount > 0 {
        2 * row as usize + 1
    } else {
        2 * row as usize + 2
    }
}

// The size of a small amount.
fn size_of(amount: i128) -> u64
    requires { unsigned_abs amount < past_sizes }
    ensures { result ≡ unsigned_abs amount }
{
    amount.unsigned_abs() as u64
}

/// Splits a worker's seat off the owner's.
pub fn split<N: RowName>(table: &SharedWords<N>, seat: &mut WordSeat) -> WordSeat
    requires table { (seat.old.table_id ≡ table.now.table_id) × (0 < table.now.table_id.words) }
    requires owner { IsOwner seat.old.me }
    requires few { made_of seat.old.me.0 < most_workers }
    ensures same { (seat.new.table_id ≡ seat.old.table_id) × (result.table_id ≡ seat.old.table_id) }
    ensures owner { seat.new.me ≡ (with_worker seat.old.me.0, []) }
    ensures worker { result.me ≡ (new_worker, []) }
{
    table.split_seat::<Splits>(seat)
}

/// Joins a worker's seat into the owner's, which takes its numbers.
pub fn join<N: RowName>(table: &SharedWords<N>, seat: &mut WordSeat, other: WordSeat)
    requires table { (seat.old.table_id ≡ table.now.table_id) × (other.table_id ≡ table.now.table_id)
        × (0 < table.now.table_id.words) }
    requires owner { IsOwner seat.old.me }
    requires worker { IsWorker other.me }
    requires complete { LastIsComplete N.jobs N.rows N.amount (reached_of other.me.0) (numbers_of other.me.0) }
    ensures same { seat.new.table_id ≡ seat.old.table_id }
    ensures owner { seat.new.me ≡ (joined_views seat.old.me.0 other.me.0, []) }
{
    table.join_seat::<Joins>(seat, other);
}

/// Closes the table with the owner's seat, where every worker was joined and some number past the jobs was claimed: at
/// each row the two words tell the sum of all jobs' amounts.
pub fn close<N: RowName>(table: WordTable<N>, seat: WordSeat) -> Closed<(), Global>
    requires table { seat.table_id ≡ table.shared.table_id }
    requires owner { IsOwner seat.me }
    requires all_joined { unjoined_of seat.me.0 ≡ 0 }
    requires past { (n : ℕ) × Contains (numbers_of seat.me.0) n × (N.jobs ≤ n) }
    ensures words { (slots_len result.words ≡ table.shared.table_id.words) × IsFull result.words }
    ensures slots { slots_len result.slots ≡ table.shared.table_id.slots }
    ensures sums { (row : ℕ) → row < N.rows → pos (slice_index (slots_items result.words) (word_at positive row))
        ≡ sum_over_jobs N.amount N.jobs row +ℤ pos (slice_index (slots_items result.words) (word_at negative row)) }
{
    table.close_with(seat)
}
