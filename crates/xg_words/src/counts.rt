//! How many jobs and rows a name has.
ghost use Rattle.std.specs.Prelude.{◌≡◌};
ghost use Rattle.def_words.specs.Amounts.{AreSmall};

use std::marker::PhantomData;
use xg_rowcore::RowName;

/// The numbers of jobs and of rows of a name whose amounts are small. It owns no memory, so that a board, which does,
/// can keep these facts of its name.
#[derive(Drop)]
pub(crate) struct Counts<N: RowName> {
    pub(crate) jobs: u32,
    pub(crate) rows: u32,
    name: PhantomData<N>,
    ghost jobs_are: { jobs ≡ N.jobs },
    ghost rows_are: { rows ≡ N.rows },
    ghost small: { AreSmall N.jobs N.rows N.amount },
}

impl<N: RowName> Counts<N> {
    pub(crate) fn of(jobs: u32, rows: u32) -> Counts<N>
        requires jobs { jobs ≡ N.jobs }
        requires rows { rows ≡ N.rows }
        requires small { AreSmall N.jobs N.rows N.amount }
        ensures { (result.jobs ≡ jobs) × (result.rows ≡ rows) }
    {
        Counts {
            jobs,
            rows,
            name: PhantomData,
        }
    }
}
