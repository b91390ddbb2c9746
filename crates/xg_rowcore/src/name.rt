//! What the locks of one round have in common.
use std::marker::Brand;

/// What the locks of one round have in common, for contracts alone: how many jobs there are, how many rows, each job's
/// amount at each row, and the table whose seats carry the rights to add.
///
/// A type that has a name for its parameter keeps its facts about these jobs, whoever uses it.
pub trait RowName {
    ghost use Rattle.std.specs.Prelude.{ℕ, ℤ, ◌<◌, ◌≤◌, unsigned_abs};
    ghost use Rattle.atomic_table.specs.Seated.{TableId};
    ghost use Rattle.def_sums.specs.Limits.{most_row};
    ghost use Rattle.def_sums.specs.Sum.{nat_sum_over};
    ghost use Rattle.def_history.specs.History.{job_numbers};

    /// How many jobs there are.
    ghost jobs: { ℕ };

    /// How many rows there are.
    ghost rows: { ℕ };

    /// What a job adds to a row, by the job's number and the row.
    ghost amount: { ℕ → ℕ → ℤ };

    /// The table of the workers' rights.
    ghost table: { TableId };

    /// At each row the sizes of all jobs' amounts add up to at most 2^98.
    ghost small: { (row : ℕ) → row < rows
        → nat_sum_over (λ job. unsigned_abs (amount job row)) (job_numbers jobs) ≤ most_row };
}

impl RowName for Brand {
    ghost use Rattle.std.specs.Prelude.{pos};
    ghost use Rattle.xg_rowcore.specs.Names.{no_table, none_is_small};

    ghost jobs = { 0 };

    ghost rows = { 0 };

    ghost amount = { λ _ _. pos 0 };

    ghost table = { no_table };

    ghost small = { none_is_small };
}
