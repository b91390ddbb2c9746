//! Steps on the words of the rows that may be taken, and a whole run to its close. There is no code here; each
//! function's contract is a law or a worked row.
#![tactic(auto)]

ghost use Rattle.def_words_runs.specs.Runs.{OneRunEnds, RoomRows};
ghost use Rattle.def_words_runs.specs.Taken.{StepsMayBeTaken};

/// Each seat may take each step whose conditions hold.
pub fn steps_may_be_taken()
    ensures { StepsMayBeTaken }
{}

/// Row: two workers add two jobs, and the run ends with the sums.
pub fn one_run_ends()
    ensures { OneRunEnds }
{}

/// Row: the room of a word, in a number.
pub fn room_rows()
    ensures { RoomRows }
{}
