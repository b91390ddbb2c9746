//! The owner of a board.
ghost use Rattle.std.specs.Prelude.{◌≡◌};
ghost use Rattle.def_words.specs.Views.{made_of, numbers_of, unjoined_of};
ghost use Rattle.xg_atomic.specs.Seats.{IsOwner};

use std::marker::{Model, PhantomData};
use xg_atomic::WordSeat;
use xg_rowcore::RowName;

/// What the caller of a board's opening holds: the numbers that the joined workers claimed, and how many workers it
/// made and has not joined yet.
#[derive(Drop)]
pub struct Owner<N: RowName> {
    pub(crate) seat: WordSeat,
    name: PhantomData<N>,
}

impl<N: RowName> Model for Owner<N> {
    ghost use Rattle.def_words.specs.Views.{made_of, numbers_of, unjoined_of};
    ghost use Rattle.xg_atomic.specs.Seats.{IsOwner};
    ghost use Rattle.xg_words.specs.Holdings.{OwnerClaims};

    ghost Value = { OwnerClaims };

    ghost view = { λ o. record {
      table = o.seat.table_id;
      numbers = numbers_of o.seat.me.0;
      made = made_of o.seat.me.0;
      unjoined = unjoined_of o.seat.me.0;
    } };

    ghost invariant = { λ o. IsOwner o.seat.me };
}

impl<N: RowName> Owner<N> {
    pub(crate) fn of(seat: WordSeat) -> Owner<N>
        requires { IsOwner seat.me }
        ensures { result ≡ record {
          table = seat.table_id;
          numbers = numbers_of seat.me.0;
          made = made_of seat.me.0;
          unjoined = unjoined_of seat.me.0;
        } }
    {
        Owner {
            seat,
            name: PhantomData,
        }
    }

    pub(crate) fn into_seat(self) -> WordSeat
        ensures owner { IsOwner result.me }
        ensures table { result.table_id ≡ self.table }
        ensures numbers { numbers_of result.me.0 ≡ self.numbers }
        ensures unjoined { unjoined_of result.me.0 ≡ self.unjoined }
    {
        let Owner { seat, name: _ } = self;
        seat
    }
}
