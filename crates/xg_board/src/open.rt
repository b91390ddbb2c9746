//! The opening of a board.
ghost use Rattle.std.specs.Prelude.{◌≡◌, ◌<◌, ◌+◌, [], length, vec_len, IfOk};
ghost use Rattle.def_sums.specs.Limits.{most_workers};
ghost use Rattle.def_plan.specs.Form.{sequence_count};
ghost use Rattle.def_plan.specs.FormRows.{row_count};
ghost use Rattle.xg_jobs.specs.Table.{IsTableOf};
ghost use Rattle.xg_locked.specs.Rights.{number_from, seen, stripes_of};
ghost use Rattle.xg_locked.specs.Locked.{number_met};

use crate::base::Base;
use crate::board::RowBoard;
use crate::purse::Purse;
use def_tree::Player;
use std::alloc::{AllocError, Global};
use std::sync::Mutex;
use xg_jobs::{JobTable, Rows};
use xg_locked::{Bag, RightsSeat, SeatedStripe, SharedRights};
use xg_rowcore::RowName;
use xg_seq::SeqForm;

impl<N: RowName> RowBoard<N> {
    /// Opens a board of these jobs for the form's rows: every job is in the bag, and nothing is added yet.
    ///
    /// The board is given no numbers of a plan. What it knows of amounts comes with the packets.
    pub fn open(
        alloc: Global,
        base: Base,
        form: &SeqForm,
        jobs: &JobTable,
    ) -> Result<(RowBoard<N>, Purse<N>), AllocError>
        requires built { IsTableOf form.now jobs.now }
        requires base { base.jobs ≡ length jobs.now.ranges }
        requires table { base.table.shared.table_id ≡ N.table }
        requires jobs { length jobs.now.ranges ≡ N.jobs }
        requires rows { row_count form.now ≡ N.rows }
        ensures jobs { IfOk result (λ opened. opened.0.jobs ≡ base.jobs) }
        ensures stripes { IfOk result (λ opened. opened.0.stripes ≡ base.stripes) }
        ensures rows { IfOk result (λ opened. length opened.0.rows.one ≡ sequence_count form.now.sets_one) }
        ensures purse { IfOk result
            (λ opened. opened.1 ≡ record { made = 0; number = number_from base.jobs base.stripes }) }
    {
        let Base {
            table,
            mut seat,
            jobs: count,
            stripes,
        } = base;
        let rows = Rows::new(alloc, form)?;
        let row_count = form.sequence_count(Player::One) + form.sequence_count(Player::Two);
        let bag = Bag::new(alloc, &table.shared, &mut seat, count)?;
        let locked = seated_stripes::<N>(
            alloc,
            &table.shared,
            &mut seat,
            stripes,
            row_count,
            count,
        )?;
        let board = RowBoard {
            table,
            bag: Mutex::new(bag),
            locked,
            rows,
            jobs: count,
            stripes,
        };
        Ok((board, Purse::of(seat)))
    }
}

// All stripes, each with a part of the seat.
fn seated_stripes<N: RowName>(
    alloc: Global,
    table: &SharedRights,
    seat: &mut RightsSeat,
    stripes: u32,
    rows: u32,
    jobs: u32,
) -> Result<Vec<Mutex<SeatedStripe<N>>>, AllocError>
    requires table { (table.now.table_id ≡ N.table) × (0 < N.table.words) × (seat.old.table_id ≡ N.table) }
    requires name { (rows ≡ N.rows) × (jobs ≡ N.jobs) }
    requires stripes { stripes_of (number_met seat.old.me) ≡ stripes }
    requires seat { seat.old.me ≡ (seen [] most_workers (stripes + (most_workers + 1)) (number_met seat.old.me), []) }
    ensures stripes { IfOk result (λ v. vec_len v ≡ stripes) }
    ensures table { IfOk result (λ v. seat.new.table_id ≡ N.table) }
    ensures seat { IfOk result
        (λ v. seat.new.me ≡ (seen [] most_workers (most_workers + 1) (number_met seat.old.me), [])) }
{
    let mut locked = Vec::new(alloc);
    for index in 0..stripes {
        let stripe = SeatedStripe::new(alloc, table, seat, index, stripes, rows, jobs)?;
        locked.push(Mutex::new(stripe))?;
    }
    Ok(locked)
}
