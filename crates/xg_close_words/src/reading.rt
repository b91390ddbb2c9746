//! Reading the words.
ghost use Rattle.std.specs.Prelude.{IfOk, pos, ◌≤ℤ◌, ◌≤◌};
ghost use Rattle.xg_close_words.specs.Limits.{AreWithinLimits, IsWithinRounds};

use crate::asked::{Asked, MOST_ROUNDS, USUAL_ROUNDS};
use crate::command::command;
use clap::error::ErrorKind;
use clap::{ArgMatches, Command, Error};
use std::alloc::Global;
use std::convert::AsStr;
use xg_frac::{Frac, read_literal};

/// What the words ask for, or what `clap` says of them: its help, its version or why they aren't taken.
pub fn read_words<'a, S: AsStr>(alloc: Global, words: &'a [S]) -> Result<Asked<'a>, Error>
    ensures { IfOk result AreWithinLimits }
{
    let mut command = command(alloc)?;
    let asked = parse(alloc, &mut command, words);
    drop(command);
    asked
}

fn parse<'a, S: AsStr>(
    alloc: Global,
    command: &mut Command<'a>,
    words: &'a [S],
) -> Result<Asked<'a>, Error>
    ensures { IfOk result AreWithinLimits }
{
    let given = command.try_get_matches_from_mut(words)?;
    let asked = asked_by(alloc, &given, command);
    drop(given);
    asked
}

fn asked_by<'a>(
    alloc: Global,
    given: &ArgMatches<'a>,
    command: &mut Command<'a>,
) -> Result<Asked<'a>, Error>
    ensures { IfOk result AreWithinLimits }
{
    let Some(file) = given.get_str("FILE") else {
        return Err(command.error(ErrorKind::MissingRequiredArgument, "no file is named")?);
    };
    let rounds = rounds_of(given, command)?;
    let width = match given.get_str("width") {
        Some(text) => Some(width_of(alloc, text, command)?),
        None => None,
    };
    Ok(Asked {
        file,
        width,
        rounds,
        quiet: given.get_flag("quiet"),
    })
}

/// The number of rounds, which `clap` has shown to be in its range.
fn rounds_of<'a>(given: &ArgMatches<'a>, command: &mut Command<'a>) -> Result<u32, Error>
    ensures { IfOk result IsWithinRounds }
{
    let rounds = given.get_one::<u32>("rounds").unwrap_or(USUAL_ROUNDS);
    if rounds == 0 || rounds > MOST_ROUNDS {
        return Err(command.error(
            ErrorKind::ValueValidation,
            "the rounds are from 1 to 4194304",
        )?);
    }
    Ok(rounds)
}

/// The width that a literal writes, which is above 0.
fn width_of<'a>(alloc: Global, text: &str, command: &mut Command<'a>) -> Result<Frac, Error>
    ensures { IfOk result (λ width. pos 1 ≤ℤ width.num) }
{
    match read_literal(text.as_bytes()) {
        Ok(width) if width.num() > 0 => Ok(width),
        _ => {
            let message = format!(in alloc;
                "invalid value '{text}' for '--width <W>': it is a whole number, fraction or decimal above 0"
            )?;
            Err(command.error(ErrorKind::ValueValidation, message.as_str())?)
        }
    }
}
