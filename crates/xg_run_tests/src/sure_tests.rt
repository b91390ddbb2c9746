//! Files and a sink that can't fail.
ghost use Rattle.std.specs.Prelude.{◌≢◌};

use crate::calls::words_of;
use std::alloc::AllocError;
use std::marker::Sync;
use std::sync::Wait;
use std::test::Fail;
use std::thread::Threads;
use xg_io::OpenGate;
use xg_memory::{MemSink, SureFiles, SureSink};
use xg_run::{Words, run};

/// Player one forgets at node 3 that they went on.
const FORGETFUL: &str = r#"EFG 2 R "Absent" { "A" "B" }
p "" 1 1 "" { "exit" "on" } 0
t "" 0
p "" 1 1 0
t "" 1 { 4, -4 }
t "" 2 { 1, -1 }
"#;

/// The status of a run over files and a sink that can't fail. Their counts of faults are always 0, so it is neither
/// that of a read fault nor that of a write fault.
fn sure_status<Rt: Threads + Wait + Sync + AllocGlobal>(
    rt: &Rt,
    words: &Words,
    files: &mut SureFiles,
    out: &mut SureSink,
    err: &mut MemSink,
) -> u8
    ensures no_read_fault { result ≢ 3 }
    ensures no_write_fault { result ≢ 4 }
{
    run(rt, rt.alloc(), words, files, out, err, &OpenGate)
}

/// Words, where the file `game` is the forgetful one, with the status, how many bytes are written, and what is said.
type Row = (&'static str, u8, u64, &'static str);

static ROWS: [Row; 6] = [
    (
        "solve game",
        1,
        0,
        "refused 18 NotRecall node 3 earlier 1\n",
    ),
    ("plus game", 1, 0, "refused 18 NotRecall node 3 earlier 1\n"),
    ("solve nofile", 1, 0, "refused 3 UnexpectedEnd\n"),
    ("check nofile nofile", 1, 0, "refused 3 UnexpectedEnd\n"),
    ("upgrade nofile nofile", 1, 0, "refused 3 UnexpectedEnd\n"),
    ("gen 2", 0, 728, ""),
];

fn holds<Rt: Threads + Wait + Sync + AllocGlobal>(rt: &Rt, row: &Row) -> Result<bool, AllocError> {
    let (words, status, written, said) = *row;
    let alloc = rt.alloc();
    let words = words_of(alloc, &[words])?;
    let mut files = SureFiles::new(alloc)?;
    files.add("game", FORGETFUL.as_bytes())?;
    let mut out = SureSink::new();
    let mut err = MemSink::new(alloc, 1_000, &[])?;
    let told = sure_status(rt, &words, &mut files, &mut out, &mut err);
    Ok(told == status && out.count() == written && err.bytes() == said.as_bytes())
}

#[test]
fn runs_over_what_cannot_fail(rt: HostRuntime) -> Result<(), Fail> {
    for row in &ROWS {
        let does_hold = holds(&rt, row)?;
        assert!(rt; does_hold);
    }
    Ok(())
}
