//! The table of the workers' rights, on which a board is opened.
ghost use Rattle.std.specs.Prelude.{◌≡◌, ◌≤◌, length, IfOk};
ghost use Rattle.def_sums.specs.Limits.{most_stripes};
ghost use Rattle.xg_board.specs.Boards.{IsBase};

use std::alloc::{AllocError, Global};
use xg_jobs::JobTable;
use xg_locked::{CODE_BASE, RightsSeat, RightsTable, open};

/// The table of the workers' rights with its first seat, for these jobs and stripes. A board is opened on it.
#[derive(Drop)]
pub struct Base {
    pub(crate) table: RightsTable,
    pub(crate) seat: RightsSeat,
    pub(crate) jobs: u32,
    pub(crate) stripes: u32,
    ghost kept: { IsBase table.shared.table_id seat.table_id seat.me jobs stripes },
}

impl Base {
    /// A table for the rights of these jobs and so many stripes, at most 64.
    pub fn new(alloc: Global, jobs: &JobTable, stripes: u32) -> Result<Base, AllocError>
        requires some { 1 ≤ stripes }
        requires few { stripes ≤ most_stripes }
        ensures jobs { IfOk result (λ base. base.jobs ≡ length jobs.now.ranges) }
        ensures stripes { IfOk result (λ base. base.stripes ≡ stripes) }
    {
        let jobs = jobs.count();
        let (table, seat) = open(alloc, CODE_BASE * u64::from(jobs) + u64::from(stripes))?;
        Ok(Base {
            table,
            seat,
            jobs,
            stripes,
        })
    }
}
