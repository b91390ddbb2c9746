//! Rows of words, each with the command that it names or with none.
use std::alloc::{AllocError, Global};
use std::process::Abort;
use std::test::Fail;
use xg_command::{Command, PlainWords, RowSettings, Settings, Words};

fn push_all(words: &mut Words, row: &[&str]) -> Result<(), AllocError> {
    for word in row {
        words.push(word)?;
    }
    Ok(())
}

pub(crate) fn words_of(alloc: Global, row: &[&str]) -> Result<Words, AllocError> {
    let mut words = Words::new(alloc);
    push_all(&mut words, row)?;
    Ok(words)
}

/// Words of a call.
pub(crate) type WordList = &'static [&'static str];

/// Shows the row that is there.
pub(crate) fn assert_no_row(rt: &impl Abort, row: Option<WordList>) {
    assert_eq!(rt; row, None);
}

const fn settings(rounds: u32, every: u32, scale: u32) -> Settings {
    Settings {
        rounds,
        every,
        scale,
    }
}

/// Rows with locks.
const fn locked(workers: Option<u32>) -> RowSettings {
    RowSettings {
        workers,
        atomic: false,
    }
}

const fn solve(file: &str, rounds: u32, every: u32, scale: u32) -> Option<Command<'_>> {
    Some(Command::Solve {
        file,
        settings: settings(rounds, every, scale),
        rows: locked(None),
    })
}

const fn plus(file: &str, rounds: u32, every: u32, scale: u32) -> Option<Command<'_>> {
    Some(Command::Plus {
        file,
        settings: settings(rounds, every, scale),
        rows: locked(None),
    })
}

const fn drill(cards: u32, rounds: u32, rows: RowSettings) -> Option<Command<'static>> {
    Some(Command::Drill {
        cards,
        settings: settings(rounds, rounds, 1_048_576),
        rows,
    })
}

/// The files of a batch, where there is room for them.
pub(crate) fn batch<'a>(
    files: &[&'a str],
    settings: Settings,
    workers: Option<u32>,
) -> Option<Command<'a>> {
    let files = PlainWords::try_from(files).ok()?;
    Some(Command::Batch {
        files,
        settings,
        workers,
    })
}

fn asks_same(one: &Settings, other: &Settings) -> bool {
    one.rounds == other.rounds && one.every == other.every && one.scale == other.scale
}

fn has_same_rows(one: &RowSettings, other: &RowSettings) -> bool {
    one.workers == other.workers && one.atomic == other.atomic
}

/// Whether both are one command, with the same words and numbers.
fn is_same(one: &Command<'_>, other: &Command<'_>) -> bool {
    match one {
        Command::Solve {
            file,
            settings,
            rows,
        } => matches!(other, Command::Solve { file: f, settings: s, rows: r }
            if f == file && asks_same(s, settings) && has_same_rows(r, rows)),
        Command::Plus {
            file,
            settings,
            rows,
        } => matches!(other, Command::Plus { file: f, settings: s, rows: r }
            if f == file && asks_same(s, settings) && has_same_rows(r, rows)),
        Command::Check { file, certificate } => {
            matches!(other, Command::Check { file: f, certificate: c } if f == file && c == certificate)
        }
        Command::Upgrade { file, certificate } => {
            matches!(other, Command::Upgrade { file: f, certificate: c } if f == file && c == certificate)
        }
        Command::Info { file } => matches!(other, Command::Info { file: f } if f == file),
        Command::Gen { cards } => matches!(other, Command::Gen { cards: c } if c == cards),
        Command::Drill {
            cards,
            settings,
            rows,
        } => matches!(other, Command::Drill { cards: c, settings: s, rows: r }
            if c == cards && asks_same(s, settings) && has_same_rows(r, rows)),
        Command::Batch {
            files,
            settings,
            workers,
        } => matches!(other, Command::Batch { files: f, settings: s, workers: w }
            if f.as_slice() == files.as_slice() && asks_same(s, settings) && w == workers),
    }
}

/// Whether both are the same command, or neither is one.
pub(crate) fn are_same(one: &Option<Command<'_>>, other: &Option<Command<'_>>) -> bool {
    match (one, other) {
        (Some(one), Some(other)) => is_same(one, other),
        (None, None) => true,
        _ => false,
    }
}

/// Whether the words of a row name this command.
fn names(alloc: Global, row: &[&str], command: Option<Command<'_>>) -> Result<bool, AllocError> {
    let words = words_of(alloc, row)?;
    Ok(are_same(&words.command(), &command))
}

/// The words, the rounds, after how many of them the plans are evaluated, and the scale.
static SOLVED: [(WordList, u32, u32, u32); 15] = [
    (&["solve", "F1"], 1000, 1000, 1_048_576),
    (&["solve", "--rounds=0", "F1"], 0, 1, 1_048_576),
    (&["solve", "--rounds", "0", "F1"], 0, 1, 1_048_576),
    (&["solve", "F1", "--rounds", "0"], 0, 1, 1_048_576),
    (&["solve", "F1", "--rounds", "1"], 1, 1, 1_048_576),
    (&["solve", "F1", "--rounds", "007"], 7, 7, 1_048_576),
    (
        &[
            "solve",
            "F1",
            "--rounds=000000000000000000000000000000000000000012",
        ],
        12,
        12,
        1_048_576,
    ),
    (
        &["solve", "F1", "--rounds", "65536"],
        65_536,
        65_536,
        1_048_576,
    ),
    (&["solve", "F1", "--every=65536"], 1000, 65_536, 1_048_576),
    (&["solve", "F1", "--every", "1"], 1000, 1, 1_048_576),
    (&["solve", "F1", "--rounds=0", "--every=3"], 0, 3, 1_048_576),
    (&["solve", "F1", "--scale", "1"], 1000, 1000, 1),
    (&["solve", "F1", "--scale=1048576"], 1000, 1000, 1_048_576),
    (
        &["solve", "--rounds", "2", "F1", "--every", "1"],
        2,
        1,
        1_048_576,
    ),
    (
        &["solve", "--every=3", "--rounds", "4", "--scale", "5", "F1"],
        4,
        3,
        5,
    ),
];

/// The first row of `SOLVED` whose words name another command.
fn first_not_solved(alloc: Global) -> Result<Option<WordList>, AllocError> {
    for &(row, rounds, every, scale) in &SOLVED {
        if !names(alloc, row, solve("F1", rounds, every, scale))? {
            return Ok(Some(row));
        }
    }
    Ok(None)
}

#[test]
fn takes_the_words_of_solve(rt: HostRuntime) -> Result<(), Fail> {
    assert_no_row(&rt, first_not_solved(rt.alloc())?);
    Ok(())
}

static PLAYED_PLUS: [(WordList, u32, u32, u32); 6] = [
    (&["plus", "F1"], 1000, 1000, 16_384),
    (&["plus", "--rounds=0", "F1"], 0, 1, 16_384),
    (&["plus", "F1", "--rounds", "2048"], 2_048, 2_048, 16_384),
    (&["plus", "F1", "--every=65536"], 1000, 65_536, 16_384),
    (&["plus", "F1", "--scale=16384"], 1000, 1000, 16_384),
    (
        &["plus", "--every=3", "--rounds", "4", "--scale", "5", "F1"],
        4,
        3,
        5,
    ),
];

/// The first row of `PLAYED_PLUS` whose words name another command.
fn first_not_plus(alloc: Global) -> Result<Option<WordList>, AllocError> {
    for &(row, rounds, every, scale) in &PLAYED_PLUS {
        if !names(alloc, row, plus("F1", rounds, every, scale))? {
            return Ok(Some(row));
        }
    }
    Ok(None)
}

/// The words, the cards, the rounds, and the workers where their number is given.
static DRILLED: [(WordList, u32, u32, Option<u32>); 4] = [
    (&["drill", "3"], 3, 1000, None),
    (&["drill", "--rounds=1", "03"], 3, 1, None),
    (
        &["drill", "64", "--workers", "64", "--rounds", "10"],
        64,
        10,
        Some(64),
    ),
    (&["drill", "--workers=1", "2", "--rounds=5"], 2, 5, Some(1)),
];

/// The first row of `DRILLED` whose words name another command.
fn first_not_drilled(alloc: Global) -> Result<Option<WordList>, AllocError> {
    for &(row, cards, rounds, workers) in &DRILLED {
        if !names(alloc, row, drill(cards, rounds, locked(workers)))? {
            return Ok(Some(row));
        }
    }
    Ok(None)
}

/// Words of `drill 3` with one round, the number of workers, and whether they add without locks.
static ATOMIC: [(WordList, Option<u32>, bool); 5] = [
    (&["drill", "3", "--rounds=1", "--atomic=1"], None, true),
    (&["drill", "--atomic", "1", "3", "--rounds=1"], None, true),
    (
        &["drill", "3", "--atomic=01", "--rounds=1", "--workers=5"],
        Some(5),
        true,
    ),
    (&["drill", "--rounds=1", "3", "--atomic=0"], None, false),
    (
        &["drill", "--rounds=1", "3", "--workers=5", "--atomic", "0"],
        Some(5),
        false,
    ),
];

/// The first row of `ATOMIC` whose words name another command.
fn first_not_atomic(alloc: Global) -> Result<Option<WordList>, AllocError> {
    for &(row, workers, atomic) in &ATOMIC {
        if !names(alloc, row, drill(3, 1, RowSettings { workers, atomic }))? {
            return Ok(Some(row));
        }
    }
    Ok(None)
}

/// The words, the files, the rounds, and the workers where their number is given.
static BATCHED: [(WordList, WordList, u32, Option<u32>); 5] = [
    (&["batch", "F1"], &["F1"], 1000, None),
    (&["batch", "F2", "F1"], &["F2", "F1"], 1000, None),
    (&["batch", "F1", "F1"], &["F1", "F1"], 1000, None),
    (
        &[
            "batch",
            "--workers=2",
            "F1",
            "--rounds",
            "65536",
            "F2",
            "--scale=1048576",
            "F3",
        ],
        &["F1", "F2", "F3"],
        65_536,
        Some(2),
    ),
    (
        &[
            "batch", "1", "2", "3", "4", "5", "6", "7", "8", "9", "10", "11", "12", "13", "14",
            "15", "16",
        ],
        &[
            "1", "2", "3", "4", "5", "6", "7", "8", "9", "10", "11", "12", "13", "14", "15", "16",
        ],
        1000,
        None,
    ),
];

/// The first row of `BATCHED` whose words name another command.
fn first_not_batch(alloc: Global) -> Result<Option<WordList>, AllocError> {
    for &(row, files, rounds, workers) in &BATCHED {
        let settings = settings(rounds, rounds, 1_048_576);
        if !names(alloc, row, batch(files, settings, workers))? {
            return Ok(Some(row));
        }
    }
    Ok(None)
}

fn is_check(alloc: Global) -> Result<bool, AllocError> {
    let check = Command::Check {
        file: "F1",
        certificate: "C1",
    };
    names(alloc, &["check", "F1", "C1"], Some(check))
}

fn is_upgrade(alloc: Global) -> Result<bool, AllocError> {
    let upgrade = Command::Upgrade {
        file: "F1",
        certificate: "C1",
    };
    names(alloc, &["upgrade", "F1", "C1"], Some(upgrade))
}

fn is_gen(alloc: Global, cards: u32, word: &str) -> Result<bool, AllocError> {
    names(alloc, &["gen", word], Some(Command::Gen { cards }))
}

#[test]
fn takes_other_commands(rt: HostRuntime) -> Result<(), Fail> {
    let alloc = rt.alloc();
    assert!(rt;
        is_check(alloc)?
            && is_upgrade(alloc)?
            && is_gen(alloc, 2, "2")?
            && is_gen(alloc, 7, "007")?
            && is_gen(alloc, 64, "64")?
    );
    assert_no_row(&rt, first_not_drilled(rt.alloc())?);
    assert_no_row(&rt, first_not_plus(rt.alloc())?);
    assert_no_row(&rt, first_not_atomic(rt.alloc())?);
    assert_no_row(&rt, first_not_batch(rt.alloc())?);
    Ok(())
}

const FILES: WordList = &[
    "F1",
    "",
    "solve",
    "info",
    "a=b",
    "rounds",
    " --rounds",
    "a-b",
    "10",
    "–rounds",
];

/// Whether `info` and `solve` take this word as a file.
fn is_taken_as_a_file(alloc: Global, file: &str) -> Result<bool, AllocError> {
    let solved = solve(file, 1000, 1000, 1_048_576);
    Ok(
        names(alloc, &["info", file], Some(Command::Info { file }))?
            && names(alloc, &["solve", file], solved)?,
    )
}

/// The first word that isn't taken as a file.
fn first_no_file(alloc: Global) -> Result<Option<&'static str>, AllocError> {
    for file in FILES {
        if !is_taken_as_a_file(alloc, file)? {
            return Ok(Some(file));
        }
    }
    Ok(None)
}

#[test]
fn takes_any_word_as_a_file(rt: HostRuntime) -> Result<(), Fail> {
    assert_eq!(rt; first_no_file(rt.alloc())?, None);
    Ok(())
}

/// Words that name no command, a row a line, parted by `|`. The first row is an empty word.
const REFUSED: &str = "
solve
info
Solve|F1
solve |F1
sol|F1
F1
gen
gen|1
gen|65
gen|F1
gen|+3
gen|3|4
gen|3|--rounds=1
drill
drill|1
drill|65
drill|3|4
drill|F1
drill|3|--workers=0
check
check|F1
check|F1|C1|C2
check|F1|C1|--rounds=1
check|F1|--
plus
plus|F1|F2
plus|F1|--rounds|2049
plus|F1|--rounds=65536
plus|F1|--scale|0
plus|F1|--scale|16385
plus|F1|--scale=1048576
plus|F1|--every=0
plus|F1|--every|65537
plus|F1|--workers=65
Plus|F1
solve|F1|--atomic
solve|F1|--atomic=
solve|F1|--atomic=2
solve|F1|--atomic=1|--atomic=1
solve|F1|--atomic=1|--atomic|0
plus|F1|--atomic|2
drill|3|--atomic=-1
check|F1|C1|--atomic=1
upgrade|F1|C1|--atomic=0
info|F1|--atomic=1
gen|3|--atomic=1
batch|F1|--atomic=1
batch|--atomic|0|F1
batch
batch|--rounds=1
batch|F1|-
batch|F1|--rounds=65537
batch|F1|--rounds=1|F2|--rounds=1
batch|F1|--workers=0
batch|1|2|3|4|5|6|7|8|9|10|11|12|13|14|15|16|17
upgrade
upgrade|F1
upgrade|F1|C1|C2
upgrade|F1|C1|--rounds=1
upgrade|F1|C1|--workers|1
Upgrade|F1|C1
--help
--version
--rounds|0|solve|F1
--rounds=0|solve|F1
solve|F1|F1
solve|F1|
solve|-
solve|F1|-
solve|F1|--
solve|--|F1
solve|F1|-r
solve|F1|--help
solve|F1|--rounds
solve|F1|--rounds=
solve|F1|--rounds|
solve|F1|--rounds=+1
solve|F1|--rounds|+1
solve|F1|--rounds=-1
solve|F1|--rounds|1\x20
solve|F1|--rounds=0x1
solve|F1|--rounds==1
solve|F1|--rounds 1
solve|F1|--round|1
solve|F1|-rounds|1
solve|F1|--Rounds|1
solve|F1|--rounds|65537
solve|F1|--rounds|18446744073709551616
solve|F1|--rounds|340282366920938463463374607431768211457
solve|F1|--every|0
solve|F1|--every|65537
solve|F1|--scale|0
solve|F1|--scale|1048577
solve|F1|--workers|0
solve|F1|--workers=65
solve|F1|--workers=2|--workers=2
solve|F1|--rounds|1|--rounds|1
solve|F1|--rounds=1|--rounds|1
solve|F1|--rounds|1|--rounds=1
info|F1|--rounds|1
info|--rounds=1|F1
info|F1|--scale|1
info|F1|F1
info|-";

fn is_refused(alloc: Global, row: &str) -> Result<bool, AllocError> {
    let mut words = Words::new(alloc);
    for word in row.split('|') {
        words.push(word)?;
    }
    Ok(words.command().is_none())
}

/// The first row of `REFUSED` whose words name a command.
fn first_taken(alloc: Global) -> Result<Option<&'static str>, AllocError> {
    for row in REFUSED.split('\n') {
        if !is_refused(alloc, row)? {
            return Ok(Some(row));
        }
    }
    Ok(None)
}

#[test]
fn refuses_other_words(rt: HostRuntime) -> Result<(), Fail> {
    assert!(rt; Words::new(rt.alloc()).command().is_none());
    assert_eq!(rt; first_taken(rt.alloc())?, None);
    Ok(())
}
