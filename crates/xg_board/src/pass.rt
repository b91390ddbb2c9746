//! The pass of a worker.
ghost use Rattle.std.specs.Prelude.{◌≡◌, []};
ghost use Rattle.xg_locked.specs.Rights.{seen};
ghost use Rattle.xg_locked.specs.Locked.{number_met};

use std::marker::{Model, PhantomData};
use xg_locked::{RightsBadge, RightsSeat, View};
use xg_rowcore::RowName;

/// What one worker holds while it draws and adds: its number, its rights, and its ticket.
#[derive(Drop)]
pub struct Pass<N: RowName> {
    pub(crate) worker: u32,
    pub(crate) badge: RightsBadge,
    pub(crate) name: PhantomData<N>,
}

impl<N: RowName> Model for Pass<N> {
    ghost use Rattle.xg_board.specs.Holdings.{IsSeatOfPass, Holding, holding_of};

    ghost Value = { Holding };

    ghost view = { λ p. holding_of p.worker p.badge.views };

    ghost invariant = { λ p. IsSeatOfPass N.table p.badge.table_id p.badge.views };
}

impl<N: RowName> Pass<N> {
    /// The worker's number.
    pub fn worker(&self) -> u32
        ensures { result ≡ self.now.worker }
    {
        self.worker
    }

    pub(crate) fn into_seat(self) -> RightsSeat
        ensures table { result.table_id ≡ N.table }
        ensures view { result.me ≡ (seen self.rights self.tickets 1 self.number, []) }
    {
        let Pass {
            worker: _,
            badge,
            name: _,
        } = self;
        badge.into_seat()
    }
}
