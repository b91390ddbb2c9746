//! Calls in which each call of the files fails in turn, each write of the text, and each room for it that is too small,
//! up to the first that doesn't.
use crate::calls::words_of;
use std::alloc::AllocError;
use std::marker::Sync;
use std::sync::Wait;
use std::test::Fail;
use std::thread::Threads;
use xg_io::OpenGate;
use xg_memory::{MemFiles, MemSink};
use xg_run::run;
use xg_test_data::{certificates, files};

/// A call on the files `game`, which is matching pennies, and `old` and `new`, which are its certificate after one
/// round in version 1 and in version 2: the whole text, how many calls the files get, and how many writes it takes.
#[derive(Clone, Copy, Drop)]
struct Call {
    words: &'static str,
    text: &'static str,
    reads: u64,
    writes: u64,
}

const INFO_OF_PENNIES: &str = r#"title "Pennies"
players "A" "B"
nodes 7 leaves 4
sets 1 1
sequences 3 3
unit 1
mass 4
"#;

const PENNIES_BY_PLUS: &str = r#"XGPLUS 1
nodes 7 leaves 4
sets 1 1
sequences 3 3
unit 1
mass 4
sum 0
rounds 2 every 1 scale 1
trace 1 1 -1 1 1
trace 2 1 -1 2 1
plan 1 1
weights 1 0 1
reply 2 -1
value 1 -1 1
plan 2 3
weights 1 2 1
reply 1 1
value 1 1 1
bracket -1 1/3
second -1/3 1
end
"#;

// A file is opened, its bytes come, and then its end.
static CALLS: [Call; 11] = [
    Call {
        words: "solve game --rounds 1",
        text: certificates::PENNIES_IN_TWO,
        reads: 3,
        writes: 1,
    },
    Call {
        words: "plus game --rounds 2 --every 1 --scale 1",
        text: PENNIES_BY_PLUS,
        reads: 3,
        writes: 1,
    },
    Call {
        words: "plus game --rounds 2 --every 1 --scale 1 --workers 3",
        text: PENNIES_BY_PLUS,
        reads: 3,
        writes: 1,
    },
    Call {
        words: "check game old",
        text: "accepted 0 0\n",
        reads: 6,
        writes: 5,
    },
    Call {
        words: "check game new",
        text: "accepted 0 0\n",
        reads: 6,
        writes: 5,
    },
    Call {
        words: "upgrade game old",
        text: certificates::PENNIES_IN_TWO,
        reads: 6,
        writes: 1,
    },
    Call {
        words: "upgrade game new",
        text: certificates::PENNIES_IN_TWO,
        reads: 6,
        writes: 1,
    },
    Call {
        words: "info game",
        text: INFO_OF_PENNIES,
        reads: 3,
        writes: 15,
    },
    Call {
        words: "gen 2",
        text: files::POKER_OF_TWO,
        reads: 0,
        writes: 1,
    },
    Call {
        words: "drill 3 --rounds 1",
        text: certificates::POKER_OF_THREE_IN_TWO,
        reads: 0,
        writes: 1,
    },
    Call {
        words: "drill 3 --rounds 1 --workers 2",
        text: certificates::POKER_OF_THREE_IN_TWO,
        reads: 0,
        writes: 1,
    },
];

/// The number of a call that doesn't come.
const NEVER: u64 = 100;

const AMPLE_ROOM: usize = 10_000;

/// The call of the files that fails, the write that does, and the room for the text.
#[derive(Clone, Copy, Drop)]
struct Faults {
    read: u64,
    write: u64,
    room: usize,
}

const NO_FAULT: Faults = Faults {
    read: NEVER,
    write: NEVER,
    room: AMPLE_ROOM,
};

/// What is said at a status.
fn line_of(status: u8) -> &'static str {
    match status {
        0 => "",
        3 => "read fault\n",
        4 => "write fault\n",
        _ => "another line",
    }
}

/// A status, and how many bytes of the text were written. There is no number where they are no front of it, or where
/// what is said isn't the line of the status.
type Answer = (u8, Option<usize>);

/// The answer where the text is written whole.
fn whole(call: &Call) -> Answer {
    (0, Some(call.text.len()))
}

/// Makes the call with these faults.
fn answer<Rt: Threads + Wait + Sync + AllocGlobal>(
    rt: &Rt,
    call: &Call,
    faults: Faults,
) -> Result<Answer, AllocError> {
    let alloc = rt.alloc();
    let words = words_of(alloc, &[call.words])?;
    let mut files = MemFiles::new(alloc, &[faults.read])?;
    files.add("game", files::PENNIES.as_bytes())?;
    files.add("old", certificates::PENNIES.as_bytes())?;
    files.add("new", certificates::PENNIES_IN_TWO.as_bytes())?;
    let mut out = MemSink::new(alloc, faults.room, &[faults.write])?;
    let mut err = MemSink::new(alloc, AMPLE_ROOM, &[])?;
    let status = run(rt, alloc, &words, &mut files, &mut out, &mut err, &OpenGate);
    let is_front = call.text.as_bytes().starts_with(out.bytes());
    let is_said = err.bytes() == line_of(status).as_bytes();
    Ok((status, (is_front && is_said).then_some(out.bytes().len())))
}

/// How many calls of the files are read faults with nothing written, one after the other, before the text is whole.
fn failing_reads<Rt: Threads + Wait + Sync + AllocGlobal>(
    rt: &Rt,
    call: &Call,
) -> Result<Option<u64>, AllocError> {
    for read in 1..NEVER {
        let answer = answer(rt, call, Faults { read, ..NO_FAULT })?;
        if answer == whole(call) {
            return Ok(Some(read - 1));
        }
        if answer != (3, Some(0)) {
            return Ok(None);
        }
    }
    Ok(None)
}

/// Whether a front of the text was written before a write fault, which isn't all of it.
fn is_cut(call: &Call, answer: Answer) -> bool {
    match answer {
        (4, Some(written)) => written < call.text.len(),
        _ => false,
    }
}

/// How many writes are write faults after a front of the text, one after the other, before the text is whole.
fn failing_writes<Rt: Threads + Wait + Sync + AllocGlobal>(
    rt: &Rt,
    call: &Call,
) -> Result<Option<u64>, AllocError> {
    for write in 1..NEVER {
        let answer = answer(rt, call, Faults { write, ..NO_FAULT })?;
        if answer == whole(call) {
            return Ok(Some(write - 1));
        }
        if !is_cut(call, answer) {
            return Ok(None);
        }
    }
    Ok(None)
}

/// Whether each room that is too small is filled before a write fault, and one that is large enough takes the text.
fn are_rooms_filled<Rt: Threads + Wait + Sync + AllocGlobal>(
    rt: &Rt,
    call: &Call,
) -> Result<bool, AllocError> {
    for room in 0..call.text.len() {
        if answer(rt, call, Faults { room, ..NO_FAULT })? != (4, Some(room)) {
            return Ok(false);
        }
    }
    let room = call.text.len();
    Ok(answer(rt, call, Faults { room, ..NO_FAULT })? == whole(call))
}

#[test]
fn each_call_of_the_files_fails_in_turn(rt: HostRuntime) -> Result<(), Fail> {
    for call in &CALLS {
        let failing = failing_reads(&rt, call)?;
        assert!(rt; failing == Some(call.reads));
    }
    Ok(())
}

#[test]
fn each_write_fails_in_turn(rt: HostRuntime) -> Result<(), Fail> {
    for call in &CALLS {
        let failing = failing_writes(&rt, call)?;
        assert!(rt; failing == Some(call.writes));
    }
    Ok(())
}

#[test]
fn each_room_that_is_too_small_is_filled(rt: HostRuntime) -> Result<(), Fail> {
    for call in &CALLS {
        let are_filled = are_rooms_filled(&rt, call)?;
        assert!(rt; are_filled);
    }
    Ok(())
}
