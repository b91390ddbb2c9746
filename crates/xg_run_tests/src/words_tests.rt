//! The words of a call as the program takes them, from a system of the tests' own.
use crate::calls::files_with;
use std::alloc::AllocError;
use std::io::ErrorKind;
use std::marker::Sync;
use std::rt::Env;
use std::sync::Wait;
use std::test::Fail;
use std::thread::Threads;
use std::{env, io};
use xg_io::OpenGate;
use xg_memory::MemSink;
use xg_run::{Words, given_words, run, status_without_words};
use xg_test_data::files::ONE_LEAF;

/// What the program is given, its own name first, the name of the one file, and the status.
static CALLS: [(&[&[u8]], &str, u8); 15] = [
    (
        &[b"xg_solve", b"solve", b"game", b"--rounds", b"0"],
        "game",
        0,
    ),
    (&[b"solve", b"solve", b"game", b"--rounds", b"0"], "game", 0),
    (&[b"", b"solve", b"game", b"--rounds", b"0"], "game", 0),
    (&[b"solve", b"game", b"--rounds", b"0"], "game", 2),
    (&[b"xg_solve"], "game", 2),
    (&[], "game", 2),
    (
        &[b"xg_solve", b" solve", b"game", b"--rounds", b"0"],
        "game",
        2,
    ),
    (
        &[b"xg_solve", b"solve", b"game", b"--rounds", b"0\n"],
        "game",
        2,
    ),
    (
        &[b"xg_solve", b"solve", b" a game ", b"--rounds", b"0"],
        " a game ",
        0,
    ),
    (
        &[b"xg_solve", b"solve", b" game", b"--rounds", b"0"],
        "game",
        3,
    ),
    (
        &[b"xg_solve", b"solve", b"game", b"--rounds", b"0"],
        "game ",
        3,
    ),
    (&[b"xg_solve", b"solve", b"", b"--rounds", b"0"], "", 0),
    (
        &[b"xg_solve", b"solve", b"\xC3\xB8", b"--rounds", b"0"],
        "\u{F8}",
        0,
    ),
    (
        &[b"xg_solve", b"solve", b"\xFF", b"--rounds", b"0"],
        "game",
        2,
    ),
    (&[b"xg_solve", b"\xC3", b"\xB8"], "game", 2),
];

/// How many calls at the end of the list have a word that isn't UTF-8.
const WORDLESS: usize = 2;

/// The system of the call at a place of the list.
#[derive(Drop)]
struct System {
    place: usize,
}

impl Env for System {
    fn arg(&self, i: usize, buf: &mut [u8]) -> Result<usize, env::FillError> {
        let Some(word) = CALLS.get(self.place).and_then(|(words, _, _)| words.get(i)) else {
            return Err(env::FillError::NotPresent);
        };
        if word.len() > buf.len() {
            return Err(env::FillError::TooLong);
        }
        buf[..word.len()].copy_from_slice(word);
        Ok(word.len())
    }

    fn var(&self, _name: &str, _buf: &mut [u8]) -> Result<usize, env::FillError> {
        Err(env::FillError::NotPresent)
    }

    fn var_at(&self, _i: usize, _buf: &mut [u8]) -> Result<usize, env::FillError> {
        Err(env::FillError::NotPresent)
    }
}

/// The status of a run with these words, where the one file has this name.
fn status_of<Rt: Threads + Wait + Sync + AllocGlobal>(
    rt: &Rt,
    words: &Words,
    name: &str,
) -> Result<u8, AllocError> {
    let alloc = rt.alloc();
    let mut files = files_with(alloc, name, ONE_LEAF, 1_000)?;
    let mut out = MemSink::new(alloc, 1_000, &[])?;
    let mut err = MemSink::new(alloc, 1_000, &[])?;
    Ok(run(rt, alloc, words, &mut files, &mut out, &mut err, &OpenGate))
}

/// The status of the call at a place of the list, and whether its words can't be had.
fn called<Rt: Threads + Wait + Sync + AllocGlobal>(
    rt: &Rt,
    place: usize,
    name: &str,
) -> Result<(u8, bool), AllocError> {
    match given_words(&(System { place }, rt.alloc())) {
        Ok(words) => Ok((status_of(rt, &words, name)?, false)),
        Err(error) => Ok((status_without_words(&error), true)),
    }
}

#[test]
fn words_are_taken_as_they_are_given(rt: HostRuntime) -> Result<(), Fail> {
    for (place, (_, name, status)) in CALLS.iter().enumerate() {
        let is_wordless = place >= CALLS.len() - WORDLESS;
        let answer = called(&rt, place, name)?;
        assert!(rt; answer == (*status, is_wordless));
    }
    Ok(())
}

/// The status where words can't be had for a fault of this kind.
fn status_of_fault(kind: ErrorKind) -> u8 {
    status_without_words(&io::Error::from(kind))
}

#[test]
fn words_that_cannot_be_had(rt: HostRuntime) {
    assert!(rt;
        status_of_fault(ErrorKind::OutOfMemory) == 5
            && status_of_fault(ErrorKind::InvalidData) == 2
            && status_of_fault(ErrorKind::InvalidInput) == 2
            && status_of_fault(ErrorKind::Other) == 2
    );
}
