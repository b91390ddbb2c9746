//! The workers of a board.
ghost use Rattle.std.specs.Prelude.{◌≡◌};
ghost use Rattle.def_words.specs.Views.{numbers_of, reached_of};
ghost use Rattle.xg_atomic.specs.Seats.{IsWorker};

use std::marker::{Model, PhantomData};
use xg_atomic::WordSeat;
use xg_rowcore::RowName;

/// What a worker holds: the numbers that it claimed, and how far the last one's amounts are added.
#[derive(Drop)]
pub struct Worker<N: RowName> {
    pub(crate) seat: WordSeat,
    name: PhantomData<N>,
}

impl<N: RowName> Model for Worker<N> {
    ghost use Rattle.def_words.specs.Views.{numbers_of, reached_of};
    ghost use Rattle.xg_atomic.specs.Seats.{IsWorker};
    ghost use Rattle.xg_words.specs.Holdings.{WorkerClaims};

    ghost Value = { WorkerClaims };

    ghost view = { λ w. record {
      table = w.seat.table_id;
      numbers = numbers_of w.seat.me.0;
      reached = reached_of w.seat.me.0;
    } };

    ghost invariant = { λ w. IsWorker w.seat.me };
}

impl<N: RowName> Worker<N> {
    pub(crate) fn of(seat: WordSeat) -> Worker<N>
        requires { IsWorker seat.me }
        ensures { result ≡ record {
          table = seat.table_id;
          numbers = numbers_of seat.me.0;
          reached = reached_of seat.me.0;
        } }
    {
        Worker {
            seat,
            name: PhantomData,
        }
    }

    pub(crate) fn into_seat(self) -> WordSeat
        ensures worker { IsWorker result.me }
        ensures table { result.table_id ≡ self.table }
        ensures numbers { numbers_of result.me.0 ≡ self.numbers }
        ensures reached { reached_of result.me.0 ≡ self.reached }
    {
        let Worker { seat, name: _ } = self;
        seat
    }
}
