//! The top call.
ghost use Rattle.std.specs.Prelude.{◌≡◌, ◌≢◌, ◌↔◌, ◌≤◌, IsNone, IsTrue, length};
ghost use Rattle.def_sums.specs.Limits.{least_cards, most_cards};
ghost use Rattle.def_outside.specs.Calls.{HasFailed, HasFailedOnce, MayHaveFailed, OpensAtMost, Wrote, WroteFront};
ghost use Rattle.def_outside.specs.Calls.{WroteNothing};
ghost use Rattle.xg_io.specs.Calls.{files_call, sink_call};
ghost use Rattle.def_command.specs.Grammar.{command_of_words, named_files};
ghost use Rattle.def_canon.specs.Poker.{poker};
ghost use Rattle.def_plus.specs.declared.Variant.TheVariants.{Plain};
ghost use Rattle.def_program.specs.Program.{played, solved};
ghost use Rattle.def_program.specs.Text.{info_text};
ghost use Rattle.def_cert_accepted.specs.Bounds.{BoundsHold};
ghost use Rattle.def_program.specs.Bounds.{ForEachPlayed};
ghost use Rattle.def_program.specs.Checked.{ForEachChecked};
ghost use Rattle.def_program.specs.Lines.{SaysLine};
ghost use Rattle.def_program.specs.Meaning.{EachMeant, EndsWith, Means};
ghost use Rattle.xg_load.specs.Endings.{Tells};
ghost use Rattle.xg_run.specs.Concludes.{Concludes, EndsCall, FileTold, IsAllowed};
ghost use Rattle.def_program_opens.specs.MayOpen.{MayOpen};

use crate::batch::batch;
use crate::check::{Report, check};
use crate::ending::{Ending, finish};
use std::alloc::Global;
use std::marker::Sync;
use std::sync::Wait;
use std::thread::Threads;
use xg_batch::play;
use xg_command::{Command, RowSettings, Words};
use xg_engine::{Settings, Variant};
use xg_io::{Files, Gate, Sink};
use xg_load::{accepted_poker, load, tell, write_poker};

/// How many files of a batch are solved at once where no number of workers is given.
const BATCH_WORKERS: u32 = 4;

/// Solves the game of a file by rounds of this variant.
fn solve<Rt: Threads + Wait + Sync, F: Files, O: Sink, G: Gate>(
    rt: &Rt,
    alloc: Global,
    file: &str,
    variant: Variant,
    settings: Settings,
    rows: RowSettings,
    files: &mut F,
    out: &mut O,
    gate: &G,
) -> Ending
    requires may_open { IsTrue (F.may_open files.old file.now) }
    requires allowed { IsAllowed variant settings rows }
    ensures concludes { Concludes ⊥ (FileTold (played variant settings) (F.told files.old file.now))
        (files_call F.Files files.old files.new) (sink_call O.Sink out.old out.new) result }
    ensures opens { OpensAtMost (files_call F.Files files.old files.new) 1 }
{
    match load(alloc, files, file) {
        Ok(accepted) => play(rt, alloc, accepted, variant, settings, rows, out, gate),
        Err(fault) => Ending::of_unloaded(alloc, fault),
    }
}

/// Tells of the game of a file.
fn info<F: Files, O: Sink>(alloc: Global, file: &str, files: &mut F, out: &mut O) -> Ending
    requires { IsTrue (F.may_open files.old file.now) }
    ensures concludes { Concludes ⊥ (FileTold info_text (F.told files.old file.now))
        (files_call F.Files files.old files.new) (sink_call O.Sink out.old out.new) result }
    ensures opens { OpensAtMost (files_call F.Files files.old files.new) 1 }
{
    match load(alloc, files, file) {
        Ok(accepted) => tell(alloc, accepted, out),
        Err(fault) => Ending::of_unloaded(alloc, fault),
    }
}

/// Solves one-card poker, which has no fault.
fn drill<Rt: Threads + Wait + Sync, O: Sink, G: Gate>(
    rt: &Rt,
    alloc: Global,
    cards: u32,
    settings: Settings,
    rows: RowSettings,
    out: &mut O,
    gate: &G,
) -> Ending
    requires cards { (least_cards ≤ cards) × (cards ≤ most_cards) }
    requires allowed { IsAllowed Plain settings rows }
    ensures { Tells (solved settings (poker cards)) (sink_call O.Sink out.old out.new) result }
{
    match accepted_poker(alloc, cards) {
        Ok(accepted) => play(
            rt,
            alloc,
            accepted,
            Variant::Plain,
            settings,
            rows,
            out,
            gate,
        ),
        Err(_) => Ending::NoMemory,
    }
}

/// Does what the words say, and says nothing of it, unless they name no command.
fn conclude<Rt: Threads + Wait + Sync, F: Files, O: Sink, G: Gate>(
    rt: &Rt,
    alloc: Global,
    words: &Words,
    files: &mut F,
    out: &mut O,
    gate: &G,
) -> Option<Ending>
    requires { MayOpen (F.told files.old) (F.may_open files.old) (command_of_words words.now) }
    ensures { EndsCall (command_of_words words.now) (F.told files.old) (files_call F.Files files.old files.new)
        (sink_call O.Sink out.old out.new) result }
{
    match words.command() {
        Some(
            Command::Solve {
                file,
                settings,
                rows,
            },
        ) => Some(solve(
            rt,
            alloc,
            file,
            Variant::Plain,
            settings,
            rows,
            files,
            out,
            gate,
        )),
        Some(
            Command::Plus {
                file,
                settings,
                rows,
            },
        ) => Some(solve(
            rt,
            alloc,
            file,
            Variant::Plus,
            settings,
            rows,
            files,
            out,
            gate,
        )),
        Some(Command::Check { file, certificate }) => {
            Some(check(alloc, Report::Verdict, file, certificate, files, out))
        }
        Some(Command::Upgrade { file, certificate }) => {
            Some(check(alloc, Report::Upgrade, file, certificate, files, out))
        }
        Some(
            Command::Batch {
                files: names,
                settings,
                workers,
            },
        ) => {
            let workers = workers.unwrap_or(BATCH_WORKERS);
            Some(batch(rt, alloc, &names, settings, workers, files, out, gate))
        }
        Some(Command::Info { file }) => Some(info(alloc, file, files, out)),
        Some(Command::Gen { cards }) => Some(write_poker(alloc, cards, out)),
        Some(
            Command::Drill {
                cards,
                settings,
                rows,
            },
        ) => Some(drill(rt, alloc, cards, settings, rows, out, gate)),
        None => None,
    }
}

/// Does all that the program does, and answers its exit status.
///
/// | Status | Meaning |
/// |---|---|
/// | 0 | the whole text was written to `out` |
/// | 1 | the game file or the certificate has a fault, which the line on `err` names with its place |
/// | 2 | the words name no command |
/// | 3 | a file can't be opened or read |
/// | 4 | `out` failed; a front of the text was written |
/// | 5 | memory ran out |
///
/// Nothing is written to `out` before the work is over. A fault of `err` changes no status: the line that `err` failed
/// to take is that of the status, too.
pub fn run<Rt: Threads + Wait + Sync, F: Files, O: Sink, E: Sink, G: Gate>(
    rt: &Rt,
    alloc: Global,
    words: &Words,
    files: &mut F,
    out: &mut O,
    err: &mut E,
    gate: &G,
) -> u8
    // The files that the words name may be opened, a certificate only where the game file isn't told to be too long.
    // Nothing is known of any other name.
    requires { MayOpen (F.told files.old) (F.may_open files.old) (command_of_words words.now) }
    ensures range { result ≤ 5 }

    // Exactly words that name no command are not taken, whatever fails.
    ensures words { (result ≡ 2) ↔ IsNone (command_of_words words.now) }

    // A file is refused only where this is meant, and what is meant is answered where nothing failed, memory apart.
    ensures refused { result ≡ 1 → EachMeant (Means words.now (F.told files.old)) (λ answer. answer.status ≡ 1) }
    ensures complete { (MayHaveFailed (files_call F.Files files.old files.new).faults → ⊥)
        → EachMeant (Means words.now (F.told files.old)) (λ answer.
        (answer.status ≡ 0 → MayHaveFailed (sink_call O.Sink out.old out.new).faults → ⊥)
        → EndsWith answer.status result) }

    // A read fault is one fault of the files. Where they failed it is answered, memory apart. Each file that the words
    // name is opened once at the most.
    ensures read_fault { result ≡ 3 → HasFailedOnce (files_call F.Files files.old files.new).faults }
    ensures files_failed { HasFailed (files_call F.Files files.old files.new).faults
        → EndsWith 3 result }
    ensures opens { OpensAtMost (files_call F.Files files.old files.new) (length (named_files words.now)) }

    // A write fault is one fault of the sink. Where that failed it is answered.
    ensures write_fault { result ≡ 4 → HasFailedOnce (sink_call O.Sink out.old out.new).faults }
    ensures out_failed { HasFailed (sink_call O.Sink out.old out.new).faults → result ≡ 4 }

    // What was written: the whole text that is meant, a front of it, or nothing.
    ensures whole { result ≡ 0 → EachMeant (Means words.now (F.told files.old)) (λ answer.
        (answer.status ≡ 0) × Wrote (sink_call O.Sink out.old out.new) answer.text) }
    ensures front { result ≡ 4 → EachMeant (Means words.now (F.told files.old)) (λ answer.
        (answer.status ≡ 0) × WroteFront (sink_call O.Sink out.old out.new) answer.text) }
    ensures nothing { result ≢ 0 → result ≢ 4 → WroteNothing (sink_call O.Sink out.old out.new) }

    // Of each game that was played for at least one round: what holds of the bounds that were written of both plans.
    ensures played { result ≡ 0 → ForEachPlayed words.now (F.told files.old)
        (sink_call O.Sink out.old out.new) BoundsHold }

    // Of each certificate that was accepted, whoever wrote it: the same of the bounds that its verdict has, of the
    // file's game; what was written is the line of its verdict, or its text in the second version.
    ensures checked { result ≡ 0 → ForEachChecked words.now (F.told files.old)
        (sink_call O.Sink out.old out.new) BoundsHold }

    // What was said: the line of the status, a certificate's fault by `check` and `upgrade` alone, and at 0 none. Where
    // `err` failed, it failed once, on a piece that was the rest of that line.
    ensures line { result ≢ 0 → SaysLine words.now (F.told files.old) result (F.taken files.new)
        (sink_call E.Sink err.old err.new) }
    ensures silent { result ≡ 0 → err.new ≡ err.old }
{
    let ending = conclude(rt, alloc, words, files, out, gate);
    finish(&ending, err)
}
