//! All rows from the groups, in either width.
ghost use Rattle.std.specs.Prelude.{◌≡◌, length, map};
ghost use Rattle.std.specs.Thread.{IsSync};
ghost use Rattle.def_plan.specs.Form.{sequence_count};
ghost use Rattle.def_plan.specs.FormRows.{player_rows};
ghost use Rattle.def_tree.specs.declared.Player.TheVariants.{One, Two};
ghost use Rattle.xg_jobs.specs.Rows.{AreNumbersOf};
ghost use Rattle.xg_jobs.specs.Writing.{CanWrite};

use crate::entry::GroupEntry;
use crate::input::{Groups, RowInput};
use crate::roll::Roll;
use crate::row::Row;
use crate::sharing::add_by_threads;
use crate::spare::THREADS;
use std::marker::{Send, Sync};
use std::sync::atomic::AtomicU64;
use std::thread::Threads;

/// Writes the rows of both players by one pass over player one's groups: by four threads if there is spare room for
/// player two's rows in three of them, and by one if there is none. Takes no memory.
///
/// Whether the other threads had ended when they were looked for. They are looked for twice as often as there are
/// entries, so that few are taken for late which win time.
pub(crate) fn write_rows<Rt: Threads + Sync, E: GroupEntry + Sync, R: Row + Send>(
    rt: &Rt,
    starts: &[u32],
    entries: &[E],
    input: &RowInput<'_>,
    own: &mut [R],
    other: &mut [R],
    spare: &mut [R],
) -> bool
    requires sync { IsSync Rt.row }
    requires numbers { AreNumbersOf input.now.form.now input.now.one.now input.now.two.now }
    requires can { CanWrite R.limit starts.now (map E.leaf entries.now) input.now.form.now input.now.one.now
        input.now.two.now }
    requires rows_one { length own.old ≡ sequence_count input.now.form.now.sets_one }
    requires rows_two { length other.old ≡ sequence_count input.now.form.now.sets_two }
    ensures own { map R.amount own.new ≡ player_rows input.now.form.now One input.now.two.now }
    ensures other { map R.amount other.new ≡ player_rows input.now.form.now Two input.now.one.now }
{
    let RowInput { one, two, .. } = *input;
    let groups = Groups {
        starts,
        entries,
        one,
        two,
    };
    let roll = Roll {
        parts: if spare.is_empty() { 1 } else { THREADS },
        done: AtomicU64::new(0),
    };
    let looks = entries.len().saturating_mul(2);
    add_by_threads(rt, &groups, &roll, looks, own, other, spare)
}
