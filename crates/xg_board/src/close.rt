//! What the close of a board takes in: the seats of all passes, and those of the stripes with their totals.
ghost use Rattle.std.specs.Prelude.{◌≡◌, ℕ, ◌<◌, ◌≤◌, ◌+◌, ◌^◌, ◌*◌, List, [], length, All, pos, ◌+ℤ◌};
ghost use Rattle.std.specs.Prelude.{unsigned_abs, slice_index_or, slice_set, vec_len};
ghost use Rattle.def_sums.specs.Limits.{most_row};
ghost use Rattle.def_history.specs.Core.{Right};
ghost use Rattle.def_history.specs.History.{replay};
ghost use Rattle.def_history.specs.Packets.{place_count as places_in};
ghost use Rattle.xg_jobs.specs.Rows.{all_rows};
ghost use Rattle.xg_locked.specs.Rights.{job_count_of, seen, stripes_of};
ghost use Rattle.xg_locked.specs.Locked.{number_met};
ghost use Rattle.xg_board.specs.Closing.{AddsTotals, Gathered};
ghost use Rattle.xg_board.specs.Holdings.{Holding, tickets_of};

use crate::pass::Pass;
use std::sync::Mutex;
use xg_jobs::Rows;
use xg_locked::{RightsSeat, SeatedStripe, SharedRights, meet};
use xg_rowcore::{RowName, Stripe};

// Takes in the seats of the passes.
pub(crate) fn take_passes<N: RowName>(
    table: &SharedRights,
    all: &mut RightsSeat,
    passes: Vec<Pass<N>>,
)
    requires table { (table.now.table_id ≡ N.table) × (0 < N.table.words) }
    requires seat { (all.old.table_id ≡ N.table) × (all.old.me.1 ≡ []) × (0 < all.old.me.0.parts)
        × (all.old.me.0.met ≡ number_met all.old.me) }
    requires no_rights { All (λ (p : Holding). p.rights ≡ []) passes.items }
    ensures table { all.new.table_id ≡ N.table }
    ensures view { all.new.me
        ≡ (
          seen all.old.me.0.rights (all.old.me.0.tickets + tickets_of passes.items)
              (all.old.me.0.parts + length passes.items) (number_met all.old.me),
          [],
        ) }
{
    for pass in passes {
        meet(table, all, pass.into_seat());
    }
}

// Takes in the seats of all stripes, with their totals.
pub(crate) fn take_stripes<N: RowName>(
    table: &SharedRights,
    all: &mut RightsSeat,
    rows: &mut Rows,
    stripes: Vec<Mutex<SeatedStripe<N>>>,
)
    requires table { (table.now.table_id ≡ N.table) × (0 < N.table.words) }
    requires seat { (all.old.table_id ≡ N.table) × (all.old.me.1 ≡ []) × (0 < all.old.me.0.parts)
        × (job_count_of (number_met all.old.me) ≡ N.jobs) × (all.old.me.0.met ≡ number_met all.old.me) }
    requires zeros { (length (all_rows rows.old) ≡ N.rows)
        × ((row : ℕ) → row < N.rows → slice_index_or (all_rows rows.old) row (pos 0) ≡ pos 0) }
    ensures table { all.new.table_id ≡ N.table }
    ensures view { all.new.me
        ≡ (
          seen all.new.me.0.rights all.old.me.0.tickets (all.old.me.0.parts + vec_len stripes)
              (number_met all.old.me),
          [],
        ) }
    ensures gathered { Gathered N.jobs N.rows (stripes_of (number_met all.old.me)) N.amount all.old.me.0.rights
        all.new.me.0.rights (all_rows rows.new) }
    ensures one { length rows.new.one ≡ length rows.old.one }
{
    for stripe in stripes {
        let (stripe, seat) = stripe.into_inner().into_parts();
        stripe.history_is_legal();
        meet(table, all, seat);
        add_totals(rows, &stripe);
    }
}

// Adds a stripe's totals to its rows.
fn add_totals<N: RowName>(rows: &mut Rows, stripe: &Stripe<N>)
    requires count { length (all_rows rows.old) ≡ N.rows }
    requires small { (row : ℕ) → row < N.rows
        → unsigned_abs (slice_index_or (all_rows rows.old) row (pos 0)) ≤ most_row }
    ensures added { AddsTotals N.amount stripe.now (all_rows rows.old) (all_rows rows.new) }
    ensures one { length rows.new.one ≡ length rows.old.one }
{
    stripe.history_is_legal();
    let index = stripe.index();
    let stripes = stripe.stripes();
    let places = place_count(row_count(rows), index, stripes);
    for place in 0..places {
        add_at(rows, place * stripes + index, stripe.total(place));
    }
}

// How many rows there are.
fn row_count(rows: &Rows) -> usize
    requires { length (all_rows rows.now) < 2 ^ 32 }
    ensures { result ≡ length (all_rows rows.now) }
{
    rows.one().len() + rows.two().len()
}

// How many of the rows lie in a stripe.
fn place_count(rows: usize, index: u32, stripes: u32) -> u32
    requires stripe { index < stripes }
    requires few { rows < 2 ^ 32 }
    ensures { result ≡ places_in stripes rows index }
{
    ((rows + stripes as usize - 1 - index as usize) / stripes as usize) as u32
}

// Adds an amount at a row.
fn add_at(rows: &mut Rows, row: u32, amount: i128)
    requires there { row < length (all_rows rows.old) }
    requires small { unsigned_abs (slice_index_or (all_rows rows.old) row (pos 0)) + unsigned_abs amount < 2 ^ 127 }
    ensures rows { all_rows rows.new
        ≡ slice_set (all_rows rows.old) row (slice_index_or (all_rows rows.old) row (pos 0) +ℤ amount) }
    ensures one { length rows.new.one ≡ length rows.old.one }
{
    let place = row as usize;
    let count = rows.one().len();
    let before = if place < count {
        rows.one()[place]
    } else {
        rows.two()[place - count]
    };
    rows.put(row, before + amount);
}
