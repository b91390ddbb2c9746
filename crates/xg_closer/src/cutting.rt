//! The cut of regrets at 0.
ghost use Rattle.std.specs.Prelude.{◌≡◌, length, map};
ghost use Rattle.def_plus.specs.Cut.{cut};
ghost use Rattle.xg_closer.specs.Regrets.{kept_regrets};

use crate::worths::Worth;

/// Puts 0 for each regret below 0: of the small ones, if they are kept.
pub(crate) fn cut_kept(most: Option<u64>, small_regrets: &mut [i64], regrets: &mut [i128])
    ensures small_count { length small_regrets.new ≡ length small_regrets.old }
    ensures count { length regrets.new ≡ length regrets.old }
    ensures regrets { kept_regrets most small_regrets.new regrets.new
        ≡ cut (kept_regrets most small_regrets.old regrets.old) }
{
    match most {
        Some(_) => cut_all(small_regrets),
        None => cut_all(regrets),
    }
}

fn cut_all<W: Worth>(worths: &mut [W])
    ensures { map W.amount worths.new ≡ cut (map W.amount worths.old) }
{
    for s in 0..worths.len() {
        worths[s] = worths[s].or_zero();
    }
}
