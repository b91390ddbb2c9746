//! The options that `clap` knows of.
use crate::asked::MOST_ROUNDS;
use clap::{Arg, ArgAction, Command, value_parser};
use std::alloc::{AllocError, Global};

/// The version of the program.
const VERSION: &str = "1.0.0";

/// The command with its options.
pub(crate) fn command<'a>(alloc: Global) -> Result<Command<'a>, AllocError> {
    Command::new(alloc, "xg_close")
        .no_binary_name(true)
        .version(VERSION)
        .about("Searches plans of both players, and prints a certificate as narrow as it is asked.")
        .arg(file(alloc))?
        .arg(width(alloc))?
        .arg(rounds(alloc))?
        .arg(quiet(alloc))
}

fn file<'a>(alloc: Global) -> Arg<'a> {
    Arg::new(alloc, "FILE")
        .required(true)
        .action(ArgAction::Set)
        .help("The game, an extensive game file of Gambit")
}

fn width<'a>(alloc: Global) -> Arg<'a> {
    Arg::new(alloc, "width")
        .long("width")
        .value_name("W")
        .action(ArgAction::Set)
        .help(
            "What HIGH less LOW may be, as 1/1000, 0.001 or 1e-3 [default: a hundred-thousandth of the payoffs' range]",
        )
}

fn rounds<'a>(alloc: Global) -> Arg<'a> {
    Arg::new(alloc, "rounds")
        .long("rounds")
        .value_name("N")
        .action(ArgAction::Set)
        .value_parser(value_parser!(u32).range(1..=i64::from(MOST_ROUNDS)))
        .help("The most rounds, from 1 to 4194304 [default: 65536]")
}

fn quiet<'a>(alloc: Global) -> Arg<'a> {
    Arg::new(alloc, "quiet")
        .long("quiet")
        .action(ArgAction::SetTrue)
        .help("Says nothing of the progress")
}
