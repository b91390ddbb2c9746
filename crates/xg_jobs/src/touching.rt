//! The rows of each job.
ghost use Rattle.std.specs.Prelude.{◌≡◌, ◌+◌, ◌≤◌, length, map, All, IfOk};
ghost use Rattle.xg_jobs.specs.Ranges.{range_of};
ghost use Rattle.xg_jobs.specs.Table.{most_touched};
ghost use Rattle.xg_touched.specs.Touched.{job_rows};

use crate::table::LeafRange;
use def_tree::Player;
use std::alloc::{AllocError, Global};
use xg_seq::SeqForm;
use xg_touched::TouchedRows;

/// The rows of each job.
pub(crate) fn touched_of(
    alloc: Global,
    form: &SeqForm,
    ranges: &[LeafRange],
) -> Result<Vec<TouchedRows>, AllocError>
    requires { All (λ r. r.first + r.count ≤ length form.now.leaves) ranges.now }
    ensures { IfOk result (λ touched. touched.items ≡ map (job_rows form.now) (map range_of ranges.now)) }
{
    let row_count = form.sequence_count(Player::One) + form.sequence_count(Player::Two);
    let mut places = vec![in alloc; 0u32; row_count as usize]?;
    let mut touched = Vec::new(alloc);
    for range in ranges {
        let rows = TouchedRows::build(alloc, form, range.first, range.count, &mut places)?;
        touched.push(rows)?;
    }
    Ok(touched)
}

/// The greatest number of rows of one job.
pub(crate) fn most_rows(touched: &[TouchedRows]) -> usize
    ensures { result ≡ most_touched touched.now }
{
    let mut most = 0;
    for job in touched {
        if job.len() > most {
            most = job.len();
        }
    }
    most
}
