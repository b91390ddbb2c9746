//! Laws of `def_history`: the jobs into which the sum over a game's leaves is cut, and the history of additions of
//! several workers: draws, rights, packets, stripes, and the rows that are left at the end.

pub mod jobs;
pub mod rows;

ghost use Rattle.def_history.specs.Locks.{CountsTellRights, LegalReplaysAreSmall, LocalStepsAreSteps};
ghost use Rattle.def_history.specs.Packets.{PacketsBringAmounts, StripesHoldTheirRows};
ghost use Rattle.def_history.specs.Worked.{TwoJobsRunToTheEnd, TwoJobsHaveThreeLeaves};
ghost use Rattle.def_history.specs.Laws.{AnyPassWithoutRightsDraws, EachRightCountsOnce, HistoriesEndComplete};
ghost use Rattle.def_history.specs.Laws.{RowsEndAsLeafSums, RowsEndAsPlainSums, ARightIsGivenUpByAdding};
ghost use Rattle.def_history.specs.Laws.{PassesHoldRightsOfJobsAndStripes, EachRightHasOneHolder, JobsAddUpToLeaves};
ghost use Rattle.def_history.specs.Laws.{BagIsLegal, HistoriesAreLegal, EachRowHasOnePlace};
ghost use Rattle.def_history.specs.Laws.{CompleteHistoriesReplayToPlainSums};

/// Any pass without rights can draw any job of the bag, and only such a pass draws.
pub fn any_pass_without_rights_draws()
    ensures { AnyPassWithoutRightsDraws }
{}

/// Whatever steps were taken, every history is legal: each job stands in it at most once, and nothing else does.
pub fn histories_are_legal()
    ensures { HistoriesAreLegal }
{}

/// Whatever steps were taken, the bag has each job at most once, and nothing else.
pub fn bag_is_legal()
    ensures { BagIsLegal }
{}

/// For each job and stripe, the times in the bag, the rights that passes hold, and the times in the history are
/// together one.
pub fn each_right_counts_once()
    ensures { EachRightCountsOnce }
{}

/// Each right is held by the bag alone, by one pass alone, or given up.
pub fn each_right_has_one_holder()
    ensures { EachRightHasOneHolder }
{}

/// A right is given up exactly where its job is in that stripe's history.
pub fn a_right_is_given_up_by_adding()
    ensures { ARightIsGivenUpByAdding }
{}

/// Whatever steps were taken, each right that a pass holds names a job and a stripe.
pub fn passes_hold_rights_of_jobs_and_stripes()
    ensures { PassesHoldRightsOfJobsAndStripes }
{}

/// With the bag empty and no right held, every job is in every history.
pub fn histories_end_complete()
    ensures { HistoriesEndComplete }
{}

/// Who sees one lock's value and a pass's rights takes a step of the core, whatever the rest of the state is.
pub fn local_steps_are_steps()
    ensures { LocalStepsAreSteps }
{}

/// Two lists have the same rights in some order exactly where each right is in both equally often; a job's rights are
/// one for each stripe.
pub fn counts_tell_rights()
    ensures { CountsTellRights }
{}

/// At each row a legal history leaves at most the sizes of all jobs' amounts together, whichever jobs it has.
pub fn legal_replays_are_small()
    ensures { LegalReplaysAreSmall }
{}

/// A legal and complete history, in whatever order, replays to the plain sum over all jobs.
pub fn complete_histories_replay_to_plain_sums()
    ensures { CompleteHistoriesReplayToPlainSums }
{}

/// With the bag empty and no right held, each row's replay is the plain sum over all jobs.
pub fn rows_end_as_plain_sums()
    ensures { RowsEndAsPlainSums }
{}

/// Each row lies at its place of its stripe and nowhere else.
pub fn each_row_has_one_place()
    ensures { EachRowHasOnePlace }
{}

/// Exactly the places of a stripe below its count of rows have a row.
pub fn stripes_hold_their_rows()
    ensures { StripesHoldTheirRows }
{}

/// A job's packet brings its amount to each row.
pub fn packets_bring_amounts()
    ensures { PacketsBringAmounts }
{}

/// Where the jobs' leaves are all leaves, each once, the jobs' amounts at a row add up to the plain sum over all
/// leaves.
pub fn jobs_add_up_to_leaves()
    ensures { JobsAddUpToLeaves }
{}

/// Where the jobs' leaves are all leaves, each once, each row's replay is the plain sum over all leaves, with the bag
/// empty and no right held.
pub fn rows_end_as_leaf_sums()
    ensures { RowsEndAsLeafSums }
{}

/// Row: steps of two jobs, one pass and two stripes lead from an opening to both jobs in both histories.
pub fn two_jobs_run_to_the_end()
    ensures { TwoJobsRunToTheEnd }
{}

/// Row: a job of two leaves and one of one leaf have all three leaves, each once.
pub fn two_jobs_have_three_leaves()
    ensures { TwoJobsHaveThreeLeaves }
{}
