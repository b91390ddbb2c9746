//! The commands and the options by their names.
ghost use Rattle.std.specs.Prelude.{◌≡◌, option_map};
ghost use Rattle.def_command.specs.Table.{most_plain, takes, least_number, most_number};
ghost use Rattle.def_command.specs.Grammar.{command_named, option_named};
ghost use Rattle.xg_command.specs.Names.{name_value, option_value};

use def_command::MOST_FILES;
use def_plus::{MOST_PLUS_ROUNDS, MOST_PLUS_SCALE};
use def_sums::{MOST_ROUNDS, MOST_SCALE, MOST_WORKERS};

/// A command by its word.
#[derive(Clone, Copy)]
pub(crate) enum CommandName {
    Solve,
    Check,
    Upgrade,
    Info,
    Gen,
    Drill,
    Plus,
    Batch,
}

/// An option by its name.
#[derive(Clone, Copy)]
pub(crate) enum OptionName {
    Rounds,
    Every,
    Scale,
    Workers,
    Atomic,
}

impl CommandName {
    pub(crate) fn of_word(word: &str) -> Option<CommandName>
        ensures { option_map name_value result ≡ command_named word.now }
    {
        match word {
            "solve" => Some(CommandName::Solve),
            "check" => Some(CommandName::Check),
            "upgrade" => Some(CommandName::Upgrade),
            "info" => Some(CommandName::Info),
            "gen" => Some(CommandName::Gen),
            "drill" => Some(CommandName::Drill),
            "plus" => Some(CommandName::Plus),
            "batch" => Some(CommandName::Batch),
            _ => None,
        }
    }

    /// The most plain words that the command has.
    pub(crate) fn most_plain(self) -> usize
        ensures { result ≡ most_plain (name_value self) }
    {
        match self {
            CommandName::Batch => MOST_FILES,
            CommandName::Check | CommandName::Upgrade => 2,
            _ => 1,
        }
    }

    /// Whether the command has this option.
    pub(crate) fn takes(self, option: OptionName) -> bool
        ensures { result ≡ takes (name_value self) (option_value option) }
    {
        match self {
            CommandName::Solve | CommandName::Drill | CommandName::Plus => true,
            CommandName::Batch => !matches!(option, OptionName::Atomic),
            _ => false,
        }
    }
}

impl OptionName {
    pub(crate) fn of_name(name: &str) -> Option<OptionName>
        ensures { option_map option_value result ≡ option_named name.now }
    {
        match name {
            "--rounds" => Some(OptionName::Rounds),
            "--every" => Some(OptionName::Every),
            "--scale" => Some(OptionName::Scale),
            "--workers" => Some(OptionName::Workers),
            "--atomic" => Some(OptionName::Atomic),
            _ => None,
        }
    }

    /// The least number that the option takes with a command: the same with each.
    pub(crate) fn least(self, _command: CommandName) -> u32
        ensures { result ≡ least_number (name_value _command) (option_value self) }
    {
        match self {
            OptionName::Rounds | OptionName::Atomic => 0,
            OptionName::Every | OptionName::Scale | OptionName::Workers => 1,
        }
    }

    /// The greatest number that the option takes with a command.
    pub(crate) fn most(self, command: CommandName) -> u32
        ensures { result ≡ most_number (name_value command) (option_value self) }
    {
        match (self, command) {
            (OptionName::Rounds, CommandName::Plus) => MOST_PLUS_ROUNDS,
            (OptionName::Scale, CommandName::Plus) => MOST_PLUS_SCALE,
            (OptionName::Rounds | OptionName::Every, _) => MOST_ROUNDS,
            (OptionName::Scale, _) => MOST_SCALE,
            (OptionName::Workers, _) => MOST_WORKERS,
            (OptionName::Atomic, _) => 1,
        }
    }
}
