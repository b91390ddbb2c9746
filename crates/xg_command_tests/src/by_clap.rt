//! The same words, read by `clap` with a command of the same options.
use crate::commands::{WordList, are_same, assert_no_row, batch, words_of};
use clap::error::ErrorKind;
use clap::{Arg, ArgAction, ArgMatches, value_parser};
use std::alloc::{AllocError, Global};
use std::process::Abort;
use std::test::Fail;
use xg_command::{Command, RowSettings, Settings};

fn numbered<'a>(alloc: Global, name: &'a str, least: i64, most: i64) -> Arg<'a> {
    Arg::new(alloc, name)
        .long(name)
        .action(ArgAction::Set)
        .value_parser(value_parser!(u32).range(least..=most))
}

fn plain<'a>(alloc: Global, name: &'a str) -> Arg<'a> {
    Arg::new(alloc, name).action(ArgAction::Set).required(true)
}

fn command_with<'a>(
    alloc: Global,
    name: &'a str,
    word: Arg<'a>,
) -> Result<clap::Command<'a>, AllocError> {
    clap::Command::new(alloc, name)
        .disable_help_flag(true)
        .arg(word)
}

/// The options of a command, with the most rounds and the greatest scale.
fn command_within<'a>(
    alloc: Global,
    name: &'a str,
    word: Arg<'a>,
    most: (i64, i64),
) -> Result<clap::Command<'a>, AllocError> {
    command_with(alloc, name, word)?
        .arg(numbered(alloc, "rounds", 0, most.0))?
        .arg(numbered(alloc, "every", 1, 65_536))?
        .arg(numbered(alloc, "scale", 1, most.1))?
        .arg(numbered(alloc, "workers", 1, 64))
}

fn atomic<'a>(alloc: Global) -> Arg<'a> {
    numbered(alloc, "atomic", 0, 1)
}

fn command_with_options<'a>(
    alloc: Global,
    name: &'a str,
    word: Arg<'a>,
) -> Result<clap::Command<'a>, AllocError> {
    command_within(alloc, name, word, (65_536, 1_048_576))?.arg(atomic(alloc))
}

fn plus<'a>(alloc: Global) -> Result<clap::Command<'a>, AllocError> {
    command_within(alloc, "plus", plain(alloc, "FILE"), (2_048, 16_384))?.arg(atomic(alloc))
}

/// A batch takes 1 to 16 files in a row. That they are no more in all is left to the room for them.
fn files<'a>(alloc: Global) -> Arg<'a> {
    plain(alloc, "FILE")
        .num_args(1..=16)
        .action(ArgAction::Append)
}

fn cards<'a>(alloc: Global) -> Arg<'a> {
    plain(alloc, "N").value_parser(value_parser!(u32).range(2..=64))
}

/// The command that has this one below it too, where there is memory for it.
fn with_subcommand<'a>(
    program: clap::Command<'a>,
    below: Result<clap::Command<'a>, AllocError>,
) -> Result<clap::Command<'a>, AllocError> {
    match below {
        Ok(below) => program.subcommand(below),
        Err(error) => Err(error),
    }
}

/// A command of a file and a certificate.
fn of_two<'a>(alloc: Global, name: &'a str) -> Result<clap::Command<'a>, AllocError> {
    command_with(alloc, name, plain(alloc, "FILE"))?.arg(plain(alloc, "CERT"))
}

fn program<'a>(alloc: Global) -> Result<clap::Command<'a>, AllocError> {
    let program = clap::Command::new(alloc, "xg_solve")
        .disable_help_flag(true)
        .disable_help_subcommand(true)
        .subcommand_required(true);
    let solve = command_with_options(alloc, "solve", plain(alloc, "FILE"));
    let program = with_subcommand(program, solve)?;
    let program = with_subcommand(program, of_two(alloc, "check"))?;
    let program = with_subcommand(program, of_two(alloc, "upgrade"))?;
    let info = command_with(alloc, "info", plain(alloc, "FILE"));
    let program = with_subcommand(program, info)?;
    let program = with_subcommand(program, command_with(alloc, "gen", cards(alloc)))?;
    let program = with_subcommand(program, command_with_options(alloc, "drill", cards(alloc)))?;
    let program = with_subcommand(program, plus(alloc))?;
    let batch = command_within(alloc, "batch", files(alloc), (65_536, 1_048_576));
    with_subcommand(program, batch)
}

fn number<'a>(given: &ArgMatches<'a>, name: &str, otherwise: u32) -> u32 {
    given.get_one::<u32>(name).unwrap_or(otherwise)
}

fn settings_of<'a>(given: &ArgMatches<'a>, scale: u32) -> Settings {
    let rounds = number(given, "rounds", 1000);
    Settings {
        rounds,
        every: number(given, "every", rounds.max(1)),
        scale: number(given, "scale", scale),
    }
}

fn rows_of<'a>(given: &ArgMatches<'a>) -> RowSettings {
    RowSettings {
        workers: given.get_one::<u32>("workers"),
        atomic: number(given, "atomic", 0) == 1,
    }
}

fn command_of<'a>(matches: &ArgMatches<'a>) -> Option<Command<'a>> {
    let (name, given) = matches.subcommand()?;
    match name {
        "solve" => Some(Command::Solve {
            file: given.get_str("FILE")?,
            settings: settings_of(given, 1_048_576),
            rows: rows_of(given),
        }),
        "plus" => Some(Command::Plus {
            file: given.get_str("FILE")?,
            settings: settings_of(given, 16_384),
            rows: rows_of(given),
        }),
        "batch" => batch(
            given.get_strs("FILE")?,
            settings_of(given, 1_048_576),
            given.get_one::<u32>("workers"),
        ),
        "check" => Some(Command::Check {
            file: given.get_str("FILE")?,
            certificate: given.get_str("CERT")?,
        }),
        "upgrade" => Some(Command::Upgrade {
            file: given.get_str("FILE")?,
            certificate: given.get_str("CERT")?,
        }),
        "info" => Some(Command::Info {
            file: given.get_str("FILE")?,
        }),
        "gen" => Some(Command::Gen {
            cards: given.get_one::<u32>("N")?,
        }),
        _ => Some(Command::Drill {
            cards: given.get_one::<u32>("N")?,
            settings: settings_of(given, 1_048_576),
            rows: rows_of(given),
        }),
    }
}

/// The words have the program's name first.
fn read_by_clap<'a>(alloc: Global, words: &'a [&'a str]) -> Result<Option<Command<'a>>, Fail> {
    match program(alloc)?.try_get_matches_from(words) {
        Ok(matches) => Ok(command_of(&matches)),
        Err(error) if error.kind() == ErrorKind::OutOfMemory => Err(Fail::from(error)),
        Err(_) => Ok(None),
    }
}

/// The words behind the program's name.
fn behind_name<'a>(words: &'a [&'a str]) -> &'a [&'a str] {
    match words {
        [_, rest @ ..] => rest,
        [] => words,
    }
}

/// Whether words are taken, by both in the same way.
fn agree<'a>(rt: &impl Abort, alloc: Global, words: &'a [&'a str]) -> Result<bool, Fail> {
    let by_clap = read_by_clap(alloc, words)?;
    let taken = words_of(alloc, behind_name(words))?;
    assert!(rt; are_same(&taken.command(), &by_clap), "{words:?}");
    Ok(by_clap.is_some())
}

const BEHIND: WordList = &[
    "F1",
    "",
    "0",
    "007",
    "65537",
    "--rounds",
    "--rounds=7",
    "--rounds=65537",
    "--rounds=",
    "--every",
    "--every=0",
    "--every=65536",
    "--workers=65",
    "--workers=2",
    "--scale=1",
    "--round",
    "-x",
];

/// How often words are taken with each word of `BEHIND` behind them.
fn count_taken(rt: &impl Abort, alloc: Global, words: &mut Vec<&'static str>) -> Result<u32, Fail> {
    let mut taken = 0u32;
    for word in BEHIND {
        words.push(word)?;
        taken = taken.saturating_add(agree(rt, alloc, words)? as u32);
        words.pop();
    }
    Ok(taken)
}

/// The same with two words behind them.
fn count_taken_by_two(
    rt: &impl Abort,
    alloc: Global,
    words: &mut Vec<&'static str>,
) -> Result<u32, Fail> {
    let mut taken = 0u32;
    for word in BEHIND {
        words.push(word)?;
        taken = taken.saturating_add(count_taken(rt, alloc, words)?);
        words.pop();
    }
    Ok(taken)
}

/// The same with three words behind them.
fn count_taken_by_three(
    rt: &impl Abort,
    alloc: Global,
    words: &mut Vec<&'static str>,
) -> Result<u32, Fail> {
    let mut taken = 0u32;
    for word in BEHIND {
        words.push(word)?;
        taken = taken.saturating_add(count_taken_by_two(rt, alloc, words)?);
        words.pop();
    }
    Ok(taken)
}

/// A first word, with how often it is taken with one word behind it, and with two.
type Front = (&'static str, u32, u32);

static FRONTS: [Front; 10] = [
    ("solve", 5, 40),
    ("info", 5, 0),
    ("gen", 1, 0),
    ("check", 0, 25),
    ("upgrade", 0, 25),
    ("drill", 1, 8),
    ("plus", 5, 40),
    ("batch", 5, 65),
    ("--rounds=1", 0, 0),
    ("", 0, 0),
];

/// The first word behind the program's name.
fn list_of(alloc: Global, first: &'static str) -> Result<Vec<&'static str>, Fail> {
    Ok(vec![in alloc; "xg_solve", first]?)
}

fn is_as_told(rt: &impl Abort, alloc: Global, front: Front) -> Result<bool, Fail> {
    let mut words = list_of(alloc, front.0)?;
    Ok(
        !agree(rt, alloc, words.as_slice())?
            && count_taken(rt, alloc, &mut words)? == front.1
            && count_taken_by_two(rt, alloc, &mut words)? == front.2,
    )
}

/// The first of `FRONTS` that is taken in another number.
fn first_other(rt: &impl Abort, alloc: Global) -> Result<Option<&'static str>, Fail> {
    for front in &FRONTS {
        if !is_as_told(rt, alloc, *front)? {
            return Ok(Some(front.0));
        }
    }
    Ok(None)
}

#[test]
fn agrees_with_clap(rt: HostRuntime) -> Result<(), Fail> {
    let mut solve = list_of(rt.alloc(), "solve")?;
    assert!(rt; count_taken_by_three(&rt, rt.alloc(), &mut solve)? == 210);
    Ok(())
}

#[test]
fn agrees_with_clap_on_each_command(rt: HostRuntime) -> Result<(), Fail> {
    assert_eq!(rt; first_other(&rt, rt.alloc())?, None);
    Ok(())
}

/// Words that both take, and such that neither takes.
static MORE: [(WordList, bool); 22] = [
    (&["xg_solve", "solve", "--rounds=0", "F1"], true),
    (
        &["xg_solve", "solve", "F2", "--rounds", "2", "--every", "1"],
        true,
    ),
    (
        &[
            "xg_solve",
            "solve",
            "--scale",
            "3",
            "--every=2",
            "F2",
            "--rounds",
            "1",
        ],
        true,
    ),
    (
        &[
            "xg_solve",
            "solve",
            "F2",
            "--rounds",
            "2",
            "--every",
            "1",
            "--rounds=2",
        ],
        false,
    ),
    (
        &[
            "xg_solve",
            "solve",
            "--rounds",
            "2",
            "--every",
            "1",
            "--scale=1",
        ],
        false,
    ),
    (
        &[
            "xg_solve",
            "solve",
            "F1",
            "--rounds",
            "18446744073709551616",
        ],
        false,
    ),
    (&["xg_solve", "plus", "F1", "--rounds=2048"], true),
    (&["xg_solve", "plus", "F1", "--rounds", "2049"], false),
    (&["xg_solve", "plus", "--scale=16384", "F1"], true),
    (&["xg_solve", "plus", "F1", "--scale=16385"], false),
    (&["xg_solve", "solve", "F1", "--rounds=2049"], true),
    (&["xg_solve", "solve", "F1", "--atomic=1"], true),
    (
        &["xg_solve", "solve", "--atomic", "0", "F1", "--workers=3"],
        true,
    ),
    (&["xg_solve", "solve", "F1", "--atomic=2"], false),
    (
        &["xg_solve", "solve", "F1", "--atomic=1", "--atomic=1"],
        false,
    ),
    (&["xg_solve", "plus", "--atomic=1", "F1"], true),
    (&["xg_solve", "drill", "3", "--atomic", "1"], true),
    (&["xg_solve", "batch", "F1", "--atomic=1"], false),
    (&["xg_solve", "info", "F1", "--atomic=1"], false),
    (
        &["xg_solve", "batch", "F1", "--every", "2", "F1", "F2"],
        true,
    ),
    (
        &[
            "xg_solve", "batch", "1", "2", "3", "4", "5", "6", "7", "8", "9", "10", "11", "12",
            "13", "14", "15", "16",
        ],
        true,
    ),
    (
        &[
            "xg_solve",
            "batch",
            "1",
            "2",
            "3",
            "4",
            "5",
            "6",
            "7",
            "8",
            "--rounds=1",
            "9",
            "10",
            "11",
            "12",
            "13",
            "14",
            "15",
            "16",
            "17",
        ],
        false,
    ),
];

#[test]
fn agrees_with_clap_on_more_words(rt: HostRuntime) -> Result<(), Fail> {
    for &(words, is_taken) in &MORE {
        assert!(rt; agree(&rt, rt.alloc(), words)? == is_taken);
    }
    Ok(())
}

/// Words that `clap` takes and the program refuses. Behind `--` each word is a plain one to clap, and a lone minus is
/// one anywhere; and a number in Rust's spelling may have a plus.
static TAKEN_BY_CLAP: [WordList; 6] = [
    &["xg_solve", "solve", "--", "F1"],
    &["xg_solve", "solve", "--", "-x"],
    &["xg_solve", "info", "F1", "--"],
    &["xg_solve", "info", "-"],
    &["xg_solve", "solve", "F1", "--rounds=+1"],
    &["xg_solve", "solve", "F1", "--rounds", "+1"],
];

fn is_taken_by_clap_alone<'a>(alloc: Global, words: &'a [&'a str]) -> Result<bool, Fail> {
    let by_clap = read_by_clap(alloc, words)?;
    let taken = words_of(alloc, behind_name(words))?;
    Ok(by_clap.is_some() && taken.command().is_none())
}

/// The first of `TAKEN_BY_CLAP` that isn't taken by clap alone.
fn first_not_by_clap_alone(alloc: Global) -> Result<Option<WordList>, Fail> {
    for words in &TAKEN_BY_CLAP {
        if !is_taken_by_clap_alone(alloc, words)? {
            return Ok(Some(words));
        }
    }
    Ok(None)
}

#[test]
fn differs_from_clap_by_nature(rt: HostRuntime) -> Result<(), Fail> {
    assert_no_row(&rt, first_not_by_clap_alone(rt.alloc())?);
    Ok(())
}
