//! The options of a call, and their numbers.
ghost use Rattle.std.specs.Prelude.{◌≡◌};
ghost use Rattle.def_command.specs.Grammar.{number_from_to, number_so_far, with_number, settings_in, rows_in};
ghost use Rattle.xg_command.specs.Names.{name_value, option_value};
ghost use Rattle.xg_command.specs.Values.{numbers_value, no_numbers};

use crate::names::{CommandName, OptionName};
use def_command::{RowSettings, Settings};
use xg_frac::read_whole;

/// The rounds that are played where no number is given.
const DEFAULT_ROUNDS: u32 = 1000;

/// The numbers of the options that were given so far.
#[derive(Clone, Copy)]
pub(crate) struct Options {
    rounds: Option<u32>,
    every: Option<u32>,
    scale: Option<u32>,
    pub(crate) workers: Option<u32>,
    atomic: Option<u32>,
}

impl Options {
    pub(crate) fn none() -> Options
        ensures { numbers_value result ≡ no_numbers }
    {
        Options {
            rounds: None,
            every: None,
            scale: None,
            workers: None,
            atomic: None,
        }
    }

    pub(crate) fn get(self, option: OptionName) -> Option<u32>
        ensures { result ≡ number_so_far (numbers_value self) (option_value option) }
    {
        match option {
            OptionName::Rounds => self.rounds,
            OptionName::Every => self.every,
            OptionName::Scale => self.scale,
            OptionName::Workers => self.workers,
            OptionName::Atomic => self.atomic,
        }
    }

    pub(crate) fn set(&mut self, option: OptionName, number: u32)
        ensures { numbers_value self.new ≡ with_number (numbers_value self.old) (option_value option) number }
    {
        let number = Some(number);
        match option {
            OptionName::Rounds => self.rounds = number,
            OptionName::Every => self.every = number,
            OptionName::Scale => self.scale = number,
            OptionName::Workers => self.workers = number,
            OptionName::Atomic => self.atomic = number,
        }
    }

    /// The settings, with the command's usual number for each option that isn't given: of the scale the greatest. With
    /// none for `--every` the plans are evaluated once, after the last round.
    pub(crate) fn settings(self, command: CommandName) -> Settings
        ensures { result ≡ settings_in (name_value command) (numbers_value self) }
    {
        let rounds = self.rounds.unwrap_or(DEFAULT_ROUNDS);
        Settings {
            rounds,
            every: self.every.unwrap_or(if rounds == 0 { 1 } else { rounds }),
            scale: self.scale.unwrap_or(OptionName::Scale.most(command)),
        }
    }

    /// The rows as they are asked for. With none for `--atomic` they have locks, whatever the command.
    pub(crate) fn rows(self, _command: CommandName) -> RowSettings
        ensures { result ≡ rows_in (name_value _command) (numbers_value self) }
    {
        RowSettings {
            workers: self.workers,
            atomic: self.atomic.unwrap_or(0) == 1,
        }
    }
}

/// The number that these digits give, if they are digits and it is in this range.
pub(crate) fn number_from_to(least: u32, most: u32, digits: &str) -> Option<u32>
    ensures { result ≡ number_from_to least most digits.now }
{
    let number = read_whole(digits.as_bytes()).ok()?;
    if number < least as u64 || number > most as u64 {
        return None;
    }
    Some(number as u32)
}
