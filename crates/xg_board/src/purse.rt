//! The purse that passes are taken from.
ghost use Rattle.std.specs.Prelude.{◌≡◌, ◌<◌, ◌≤◌, ◌+◌, ◌-◌, []};
ghost use Rattle.def_sums.specs.Limits.{most_workers};
ghost use Rattle.xg_locked.specs.Rights.{seen};
ghost use Rattle.xg_locked.specs.Locked.{number_met};

use std::marker::{Brand, Model, PhantomData};
use xg_locked::{RightsSeat, SharedRights, View, cut};
use xg_rowcore::RowName;

/// What the caller of a board's opening holds: the tickets and the parts for at most 64 passes.
#[derive(Drop)]
pub struct Purse<N: RowName> {
    made: u32,
    seat: RightsSeat,
    name: PhantomData<N>,
}

impl<N: RowName> Model for Purse<N> {
    ghost use Rattle.xg_board.specs.Holdings.{IsPurse, PurseView};

    ghost Value = { PurseView };

    ghost view = { λ p. record { made = p.made; number = p.seat.me.0.number } };

    ghost invariant = { λ p. IsPurse N.table p.seat.table_id p.seat.me p.made };
}

impl<N: RowName> Purse<N> {
    pub(crate) fn of(seat: RightsSeat) -> Purse<N>
        requires { (seat.table_id ≡ N.table)
            × (seat.me ≡ (seen [] most_workers (most_workers + 1) (number_met seat.me), [])) }
        ensures { result ≡ record { made = 0; number = number_met seat.me } }
    {
        Purse {
            made: 0,
            seat,
            name: PhantomData,
        }
    }

    // Gives a ticket and a part for a pass.
    pub(crate) fn give(&mut self, table: &SharedRights) -> RightsSeat
        requires table { (table.now.table_id ≡ N.table) × (0 < N.table.words) }
        requires few { self.old.made < most_workers }
        ensures table { result.table_id ≡ N.table }
        ensures seat { result.me ≡ (seen [] 1 1 self.old.number, []) }
        ensures purse { self.new ≡ record { made = self.old.made + 1; number = self.old.number } }
    {
        let seat = cut::<Brand>(table, &mut self.seat);
        self.made += 1;
        seat
    }

    pub(crate) fn into_seat(self) -> RightsSeat
        ensures table { result.table_id ≡ N.table }
        ensures view { result.me ≡ (seen [] (most_workers - self.made) (most_workers + 1 - self.made) self.number, []) }
        ensures few { self.made ≤ most_workers }
    {
        let Purse {
            made: _,
            seat,
            name: _,
        } = self;
        seat
    }
}
