//! Files and streams that fail at one call, or have too little room.
use crate::calls::{files_with, words_of};
use std::alloc::{AllocError, Global};
use std::marker::Sync;
use std::sync::Wait;
use std::test::Fail;
use std::thread::Threads;
use xg_io::OpenGate;
use xg_memory::MemSink;
use xg_run::run;
use xg_test_data::certificates::ONE_LEAF_HEAD_IN_TWO;
use xg_test_data::files::{ONE_LEAF, PENNIES};

/// The first 100 bytes of the text of `PENNIES` after one round.
const PENNIES_FRONT: &str = r#"XGCERT 2
nodes 7 leaves 4
sets 1 1
sequences 3 3
unit 1
mass 4
sum 0
rounds 1 every 1 scale 1048576
"#;

/// The text of CFR+ for `PENNIES` after one round, up to its trace.
const PLUS_FRONT: &str = r#"XGPLUS 1
nodes 7 leaves 4
sets 1 1
sequences 3 3
unit 1
mass 4
sum 0
rounds 1 every 1 scale 16384
"#;

const SOLVE: &str = "solve game --rounds 0";

const SOLVE_ONE_ROUND: &str = "solve game --rounds 1";

const PLUS_ONE_ROUND: &str = "plus game --rounds 1";

const NO_FILE: &str = "solve nofile --rounds 0";

const NO_CERTIFICATE: &str = "check game nofile";

/// The payoffs at node 5 don't add up to what those at node 3 do.
const NOT_CONSTANT_SUM: &str = r#"EFG 2 R "Sum" { "A" "B" }
c "" 1 "" { "g" 0.5 "b" 0.5 } 0
p "" 1 1 "" { "H" "L" } 0
t "" 1 { 4, -4 }
t "" 2 { 0, 0 }
t "" 3 { 10.000000 2.000000 }
"#;

/// A stream's bytes of room, and its write that fails.
#[derive(Clone, Copy, Drop)]
struct Stream {
    room: usize,
    failing: u64,
}

/// The number of a call that doesn't come.
const NEVER: u64 = 1_000;

const AMPLE: Stream = Stream {
    room: 1_000,
    failing: NEVER,
};

const FAILS_AT_ONCE: Stream = Stream {
    room: 1_000,
    failing: 1,
};

const FIVE_BYTES: Stream = Stream {
    room: 5,
    failing: NEVER,
};

/// A call on the file `game`, and what comes of it.
#[derive(Clone, Copy, Drop)]
struct Case {
    words: &'static str,
    game: &'static str,
    // the call of the files that fails
    read: u64,
    out: Stream,
    err: Stream,
    status: u8,
    written: &'static str,
    said: &'static str,
}

/// Without rounds, a game of one leaf whose files fail at their first call.
const READ_FAULT: Case = Case {
    words: SOLVE,
    game: ONE_LEAF,
    read: 1,
    out: AMPLE,
    err: AMPLE,
    status: 3,
    written: "",
    said: "read fault\n",
};

static FILES_THAT_FAIL: [Case; 5] = [
    READ_FAULT,
    Case {
        read: 2,
        ..READ_FAULT
    },
    Case {
        read: 3,
        ..READ_FAULT
    },
    Case {
        words: NO_FILE,
        read: NEVER,
        ..READ_FAULT
    },
    Case {
        words: NO_CERTIFICATE,
        game: NOT_CONSTANT_SUM,
        read: NEVER,
        ..READ_FAULT
    },
];

/// Without rounds, a game of one leaf whose text can't be written.
const WRITE_FAULT: Case = Case {
    words: SOLVE,
    game: ONE_LEAF,
    read: NEVER,
    out: FAILS_AT_ONCE,
    err: AMPLE,
    status: 4,
    written: "",
    said: "write fault\n",
};

static STREAMS_THAT_FAIL: [Case; 7] = [
    WRITE_FAULT,
    Case {
        out: Stream {
            room: 30,
            failing: NEVER,
        },
        written: "XGCERT 2\nnodes 1 leaves 1\nsets",
        ..WRITE_FAULT
    },
    Case {
        out: Stream {
            room: 0,
            failing: NEVER,
        },
        ..WRITE_FAULT
    },
    Case {
        words: SOLVE_ONE_ROUND,
        game: PENNIES,
        ..WRITE_FAULT
    },
    Case {
        words: SOLVE_ONE_ROUND,
        game: PENNIES,
        out: Stream {
            room: 100,
            failing: NEVER,
        },
        written: PENNIES_FRONT,
        ..WRITE_FAULT
    },
    Case {
        words: PLUS_ONE_ROUND,
        game: PENNIES,
        ..WRITE_FAULT
    },
    Case {
        words: PLUS_ONE_ROUND,
        game: PENNIES,
        out: Stream {
            room: PLUS_FRONT.len(),
            failing: NEVER,
        },
        written: PLUS_FRONT,
        ..WRITE_FAULT
    },
];

/// Each status from 1 to 4 where `err` fails at its first write, and where it takes five bytes and fails at its second.
static LINES_THAT_FAIL: [Case; 9] = [
    Case {
        game: NOT_CONSTANT_SUM,
        out: AMPLE,
        err: FAILS_AT_ONCE,
        status: 1,
        said: "",
        ..WRITE_FAULT
    },
    Case {
        game: "",
        out: AMPLE,
        err: FAILS_AT_ONCE,
        status: 1,
        said: "",
        ..WRITE_FAULT
    },
    Case {
        words: "",
        out: AMPLE,
        err: FAILS_AT_ONCE,
        status: 2,
        said: "",
        ..WRITE_FAULT
    },
    Case {
        words: NO_FILE,
        out: AMPLE,
        err: FAILS_AT_ONCE,
        status: 3,
        said: "",
        ..WRITE_FAULT
    },
    Case {
        err: FAILS_AT_ONCE,
        said: "",
        ..WRITE_FAULT
    },
    Case {
        game: "",
        out: AMPLE,
        err: FIVE_BYTES,
        status: 1,
        said: "refus",
        ..WRITE_FAULT
    },
    Case {
        words: "",
        out: AMPLE,
        err: FIVE_BYTES,
        status: 2,
        said: "usage",
        ..WRITE_FAULT
    },
    Case {
        words: NO_FILE,
        out: AMPLE,
        err: FIVE_BYTES,
        status: 3,
        said: "read ",
        ..WRITE_FAULT
    },
    Case {
        err: FIVE_BYTES,
        said: "write",
        ..WRITE_FAULT
    },
];

/// Where `out` takes the text, a stream for lines that fails has nothing to say.
static TEXTS_BESIDE_A_FAILING_STREAM: [Case; 2] = [
    Case {
        out: AMPLE,
        err: FAILS_AT_ONCE,
        status: 0,
        written: ONE_LEAF_HEAD_IN_TWO,
        said: "",
        ..WRITE_FAULT
    },
    Case {
        out: AMPLE,
        err: FIVE_BYTES,
        status: 0,
        written: ONE_LEAF_HEAD_IN_TWO,
        said: "",
        ..WRITE_FAULT
    },
];

fn sink(alloc: Global, stream: Stream) -> Result<MemSink, AllocError> {
    MemSink::new(alloc, stream.room, &[stream.failing])
}

/// Whether what comes of a call is what the case says.
fn holds<Rt: Threads + Wait + Sync + AllocGlobal>(
    rt: &Rt,
    case: &Case,
) -> Result<bool, AllocError> {
    let alloc = rt.alloc();
    let words = words_of(alloc, &[case.words])?;
    let mut files = files_with(alloc, "game", case.game, case.read)?;
    let mut out = sink(alloc, case.out)?;
    let mut err = sink(alloc, case.err)?;
    let status = run(rt, alloc, &words, &mut files, &mut out, &mut err, &OpenGate);
    Ok(
        status == case.status
            && out.bytes() == case.written.as_bytes()
            && err.bytes() == case.said.as_bytes(),
    )
}

/// The place of the first case that doesn't hold.
fn first_wrong<Rt: Threads + Wait + Sync + AllocGlobal>(
    rt: &Rt,
    cases: &[Case],
) -> Result<Option<usize>, AllocError> {
    for (place, case) in cases.iter().enumerate() {
        if !holds(rt, case)? {
            return Ok(Some(place));
        }
    }
    Ok(None)
}

#[test]
fn files_that_fail(rt: HostRuntime) -> Result<(), Fail> {
    assert_eq!(rt; first_wrong(&rt, &FILES_THAT_FAIL)?, None);
    Ok(())
}

#[test]
fn streams_that_fail(rt: HostRuntime) -> Result<(), Fail> {
    assert_eq!(rt; first_wrong(&rt, &STREAMS_THAT_FAIL)?, None);
    Ok(())
}

#[test]
fn a_fault_of_err_changes_no_status(rt: HostRuntime) -> Result<(), Fail> {
    assert_eq!(rt; first_wrong(&rt, &LINES_THAT_FAIL)?, None);
    assert_eq!(rt; first_wrong(&rt, &TEXTS_BESIDE_A_FAILING_STREAM)?, None);
    Ok(())
}
