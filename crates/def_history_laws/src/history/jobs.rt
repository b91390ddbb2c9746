//! The jobs into which the sum over a game's leaves is cut.

ghost use Rattle.def_history.specs.Jobs.{CutsUntilNoRoom, EachLeafInOneJob, JobsAreFew, JobsComeOfPasses};
ghost use Rattle.def_history.specs.Jobs.{LaterPassesKeep, OnlyCutsChange, PassesReplace};
ghost use Rattle.def_history.specs.Ranges.{JobsPartition, RangesHaveTheirJobs};
ghost use Rattle.def_history.specs.CutRows.{JobLimitRows, LeafCountRows, SmallLimitRows};

/// In one tree, the jobs' leaves are all leaves, each once, in their order.
pub fn each_leaf_in_one_job()
    ensures { EachLeafInOneJob }
{}

/// There are never more than 4,096 jobs.
pub fn jobs_are_few()
    ensures { JobsAreFew }
{}

/// The jobs are what 64 passes, each within 4,096 jobs, make of the whole tree.
pub fn jobs_come_of_passes()
    ensures { JobsComeOfPasses }
{}

/// In a pass a chance node's job gives way to its subtrees, in its place, where there are then at most `limit` jobs;
/// each other job stays.
pub fn passes_replace()
    ensures { PassesReplace }
{}

/// A pass changes nothing exactly where no job can give way.
pub fn only_cuts_change()
    ensures { OnlyCutsChange }
{}

/// In the end no job can give way, unless each of the 64 passes replaced some.
pub fn cuts_until_no_room()
    ensures { CutsUntilNoRoom }
{}

/// A pass that replaces nothing is the last that matters.
pub fn later_passes_keep()
    ensures { LaterPassesKeep }
{}

/// In one tree, the jobs' ranges, one behind the other, are all leaves, each once.
pub fn jobs_partition()
    ensures { JobsPartition }
{}

/// In one tree, the leaves at a job's range are the job's own.
pub fn ranges_have_their_jobs()
    ensures { RangesHaveTheirJobs }
{}

/// Chance nodes at the top give way to their subtrees, and those below a player's node don't; 64 chance nodes one
/// below the other are all cut, and of 65 the last isn't.
pub fn leaf_count_rows()
    ensures { LeafCountRows }
{}

/// Within 16 jobs exactly 16 are reached, a tree with a job too many stays whole, and a small tree behind one that is
/// too large gives way.
pub fn small_limit_rows()
    ensures { SmallLimitRows }
{}

/// Beside one leaf, a chance node over 4,095 leaves gives way, to 4,096 jobs in all, and one over 4,096 doesn't.
pub fn job_limit_rows()
    ensures { JobLimitRows }
{}
