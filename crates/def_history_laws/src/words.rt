//! Laws of `def_words`: rows as atomic words, in definitions alone: seats claim the numbers of jobs from one word and
//! add what these bring to the words of the rows.

ghost use Rattle.def_words.specs.CoreSteps.{ClosesAtTheEnd, RunsAreCoreRuns, StepsAreCoreSteps};
ghost use Rattle.def_words.specs.Laws.{ClosesWithSums, StepsKeepTheRule, TheRuleHolds};

/// The opening keeps the rule, and each of the five kinds of step does.
pub fn steps_keep_the_rule()
    ensures { StepsKeepTheRule }
{}

/// Whatever steps were taken, each number below the claim word is claimed once, no claim wraps, and each row's words
/// are the sums of what the claimed jobs have added there.
pub fn the_rule_holds()
    ensures { TheRuleHolds }
{}

/// Whatever steps were taken, the words that the owner closes tell the sum of all jobs' amounts at each row.
pub fn words_close_with_sums()
    ensures { ClosesWithSums }
{}

/// Each step on the words is what the core of draws and additions knows: a claim that answers a job is its draw, the
/// last amount of a job its addition, and all else no step.
pub fn steps_are_core_steps()
    ensures { StepsAreCoreSteps }
{}

/// Whatever steps were taken on the words, steps of the core lead to the state that they show.
pub fn runs_are_core_runs()
    ensures { RunsAreCoreRuns }
{}

/// Where the owner can close, nobody holds a right any more, and all jobs are drawn.
pub fn words_close_at_the_end()
    ensures { ClosesAtTheEnd }
{}
