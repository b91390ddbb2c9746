//! The top call.
ghost use Rattle.std.specs.Prelude.{◌≡◌, ◌≢◌, ◌≤◌, ◌⊎◌, IsTrue, true, false};
ghost use Rattle.def_outside.specs.Calls.{HasFailed, HasFailedOnce, MayHaveFailed, OpensAtMost, Says};
ghost use Rattle.def_outside.specs.Calls.{Wrote, WroteFront, WroteNothing};
ghost use Rattle.def_program.specs.Meaning.{EachMeant, EndsWith};
ghost use Rattle.xg_close_words.specs.Limits.{AreWithinLimits};
ghost use Rattle.xg_io.specs.Calls.{files_call, sink_call};
ghost use Rattle.xg_close_run.specs.Brackets.{GoesWithInfo, InfoMeans, IsNarrowEnough, IsTooWide};
ghost use Rattle.xg_close_run.specs.Brackets.{IsTrueWhereTold, IsWritten};
ghost use Rattle.xg_load.specs.Endings.{line_at_end};
ghost use Rattle.xg_close_run.specs.Endings.{Concludes, status_of_search};
ghost use Rattle.xg_close_run.specs.Said.{SaysOfSearch, SaysProgress};

use crate::closing::{Closing, close, unsaid};
use std::alloc::Global;
use xg_close_words::Asked;
use xg_io::{Files, Sink};
use xg_load::{Ending, load};

/// Does all that the program does, and answers its exit status.
///
/// | Status | Meaning |
/// |---|---|
/// | 0 | the whole text was written to `out`, and its bracket is as narrow as asked |
/// | 1 | the game file has a fault, which the line on `err` names with its place |
/// | 3 | the file can't be opened or read |
/// | 4 | `out` failed; a front of the text was written |
/// | 5 | memory ran out |
/// | 6 | the whole text was written to `out`; the rounds ended before the bracket was as narrow |
///
/// Nothing is written to `out` before the search is over. A fault of `err` changes no status; nothing is said after it.
pub fn run<F: Files, O: Sink, E: Sink>(
    alloc: Global,
    asked: &Asked<'_>,
    files: &mut F,
    out: &mut O,
    err: &mut E,
) -> u8
    requires may_open { IsTrue (F.may_open files.old asked.now.file.now) }
    requires limits { AreWithinLimits asked.now }
    ensures range { result ≤ 6 }
    ensures taken { result ≢ 2 }

    // A file is refused only where `info` refuses it, and this status goes with that of `info` where nothing failed,
    // memory apart.
    ensures refused { result ≡ 1 → EachMeant (InfoMeans (F.told files.old asked.now.file.now))
        (λ answer. answer.status ≡ 1) }
    ensures complete { (MayHaveFailed (files_call F.Files files.old files.new).faults → ⊥)
        → EachMeant (InfoMeans (F.told files.old asked.now.file.now)) (λ answer.
        (answer.status ≡ 0 → MayHaveFailed (sink_call O.Sink out.old out.new).faults → ⊥)
        → GoesWithInfo answer.status result) }

    // A read fault is one fault of the files. Where they failed it is answered, memory apart. The file is opened once
    // at the most.
    ensures read_fault { result ≡ 3 → HasFailedOnce (files_call F.Files files.old files.new).faults }
    ensures files_failed { HasFailed (files_call F.Files files.old files.new).faults → EndsWith 3 result }
    ensures opens { OpensAtMost (files_call F.Files files.old files.new) 1 }

    // A write fault is one fault of the sink. Where that failed it is answered.
    ensures write_fault { result ≡ 4 → HasFailedOnce (sink_call O.Sink out.old out.new).faults }
    ensures out_failed { HasFailed (sink_call O.Sink out.old out.new).faults → result ≡ 4 }

    // What was written, whatever was found: a text that a check of the file accepts, all of whose bounds hold. At 0 its
    // bracket is as narrow as asked, at 6 it isn't.
    ensures narrow { result ≡ 0 → IsWritten (F.told files.old asked.now.file.now) (λ game text low high.
        Wrote (sink_call O.Sink out.old out.new) text × IsNarrowEnough asked.now.width game low high) }
    ensures wide { result ≡ 6 → IsWritten (F.told files.old asked.now.file.now) (λ game text low high.
        Wrote (sink_call O.Sink out.old out.new) text × IsTooWide asked.now.width game low high) }
    ensures front { result ≡ 4 → IsWritten (F.told files.old asked.now.file.now) (λ game text low high.
        WroteFront (sink_call O.Sink out.old out.new) text) }
    ensures nothing { result ≢ 0 → result ≢ 4 → result ≢ 6 → WroteNothing (sink_call O.Sink out.old out.new) }

    // What was said: lines of progress, each of which is true of plans of the file's game; then the line of the status,
    // at 0 and 6 none. Where `err` failed, it failed once, and nothing was said after it.
    ensures said { SaysOfSearch (IsTrueWhereTold asked.now.width (F.told files.old asked.now.file.now)) asked.now.quiet
        (InfoMeans (F.told files.old asked.now.file.now)) result (F.taken files.new)
        (sink_call E.Sink err.old err.new) }
    ensures quiet { IsTrue asked.now.quiet → (result ≡ 0) ⊎ (result ≡ 6) → err.new ≡ err.old }
{
    let closing = conclude(alloc, asked, files, out, err);
    finish(&closing, err)
}

/// Does what is asked, and says nothing of its end.
fn conclude<F: Files, O: Sink, E: Sink>(
    alloc: Global,
    asked: &Asked<'_>,
    files: &mut F,
    out: &mut O,
    err: &mut E,
) -> Closing
    requires may_open { IsTrue (F.may_open files.old asked.now.file.now) }
    requires limits { AreWithinLimits asked.now }
    ensures concludes { Concludes asked.now.width (F.told files.old asked.now.file.now)
        (files_call F.Files files.old files.new) (sink_call O.Sink out.old out.new) result.is_narrow result.ending }
    ensures opens { OpensAtMost (files_call F.Files files.old files.new) 1 }
    ensures said { SaysProgress (IsTrueWhereTold asked.now.width (F.told files.old asked.now.file.now)) asked.now.quiet
        result.is_heard (sink_call E.Sink err.old err.new) }
    ensures quiet { IsTrue asked.now.quiet → err.new ≡ err.old }
{
    match load(alloc, files, asked.file) {
        Ok(accepted) => {
            let closing = close(alloc, asked, &accepted, out, err);
            drop(accepted);
            closing
        }
        Err(fault) => unsaid(Ending::of_unloaded(alloc, fault)),
    }
}

/// Says the line of the end, if there is one and `err` took all that was said before, and answers the exit status.
fn finish<E: Sink>(closing: &Closing, err: &mut E) -> u8
    ensures status { result ≡ status_of_search closing.now.is_narrow closing.now.ending }
    ensures silent { (result ≡ 0) ⊎ (result ≡ 6) → err.new ≡ err.old }
    ensures unheard { closing.now.is_heard ≡ false → err.new ≡ err.old }
    ensures said { closing.now.is_heard ≡ true
        → Says (sink_call E.Sink err.old err.new) (line_at_end closing.now.ending) }
{
    let ending = &closing.ending;
    let status = if closing.is_heard {
        ending.finish(err)
    } else {
        ending.status()
    };
    if status == 0 && !closing.is_narrow {
        6
    } else {
        status
    }
}
