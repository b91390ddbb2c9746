//! Reading the words behind the command's, one after another.
ghost use Rattle.std.specs.Prelude.{◌≡◌, ◌≢◌, None, map, option_map, string_bytes};
ghost use Rattle.def_command.specs.Grammar.{takes_nothing, take_digits, read_option, around_equals};
ghost use Rattle.def_command.specs.Grammar.{read_word, read_words, command_from};
ghost use Rattle.xg_command.specs.Names.{name_value, option_value};
ghost use Rattle.xg_command.specs.Values.{taken_value, reading_value, command_value};

use crate::command::Command;
use crate::names::{CommandName, OptionName};
use crate::options::{Options, number_from_to};
use crate::plain::{PlainWords, one, two};
use def_sums::{LEAST_CARDS, MOST_CARDS};

/// What was read so far.
#[derive(Drop)]
pub(crate) struct WordsRead<'a> {
    plain: PlainWords<'a>,
    options: Options,
    /// The option whose number is the next word.
    waiting: Option<OptionName>,
}

/// Reads the words behind the command's, all of them.
pub(crate) fn read_words<'a>(name: CommandName, words: &'a [String]) -> Option<WordsRead<'a>>
    ensures { option_map taken_value result ≡ read_words (name_value name) takes_nothing None
        (map string_bytes words.now) }
{
    let mut reading = WordsRead {
        plain: PlainWords::new(),
        options: Options::none(),
        waiting: None,
    };
    for word in words {
        reading.take(name, word.as_str())?;
    }
    if reading.waiting.is_some() {
        return None;
    }
    Some(reading)
}

impl<'a> WordsRead<'a> {
    /// Takes the next word, unless it can't stand there: a plain one where the command has all of its own.
    fn take(&mut self, name: CommandName, word: &'a str) -> Option<()>
        ensures { let before = reading_value self.old in
            option_map (λ _. reading_value self.new) result
            ≡ read_word (name_value name) before.0 before.1 word.entry.now }
    {
        if let Some(option) = self.waiting {
            return self.take_digits(name, option, word);
        }
        if word.starts_with('-') {
            return self.take_option(name, word);
        }
        if self.plain.len() >= name.most_plain() {
            return None;
        }
        self.plain.push(word);
        Some(())
    }

    /// Takes a word that begins with a minus: an option's name, alone or with its number.
    fn take_option(&mut self, name: CommandName, word: &str) -> Option<()>
        ensures { option_map (λ _. reading_value self.new) result
            ≡ read_option (name_value name) (taken_value self.old) word.now (around_equals word.now) }
    {
        match word.split_once('=') {
            Some((option, digits)) => {
                let option = OptionName::of_name(option)?;
                self.take_digits(name, option, digits)
            }
            None => {
                let option = OptionName::of_name(word)?;
                self.waiting = Some(option);
                Some(())
            }
        }
    }

    /// Takes an option's number, unless the command hasn't the option or it was given before.
    fn take_digits(&mut self, name: CommandName, option: OptionName, digits: &str) -> Option<()>
        ensures { option_map (λ _. reading_value self.new) result ≡ option_map (λ next. (next, None))
            (take_digits (name_value name) (taken_value self.old) (option_value option) digits.now) }
    {
        let number = number_from_to(option.least(name), option.most(name), digits)?;
        if !name.takes(option) || self.options.get(option).is_some() {
            return None;
        }
        self.options.set(option, number);
        self.waiting = None;
        Some(())
    }

    /// The command, if all its words are there.
    pub(crate) fn command(self, name: CommandName) -> Option<Command<'a>>
        ensures { option_map command_value result ≡ command_from (name_value name) (taken_value self.entry) }
    {
        match name {
            CommandName::Batch => {
                if self.plain.is_empty() {
                    return None;
                }
                Some(Command::Batch {
                    settings: self.options.settings(name),
                    workers: self.options.workers,
                    files: self.plain,
                })
            }
            _ => self.of_few(name),
        }
    }

    /// The command, which isn't a batch: it has one plain word, or two.
    fn of_few(&self, name: CommandName) -> Option<Command<'a>>
        requires { name ≢ CommandName.Batch }
        ensures { option_map command_value result ≡ command_from (name_value name) (taken_value self.now) }
    {
        let settings = self.options.settings(name);
        let rows = self.options.rows(name);
        match name {
            CommandName::Solve => Some(Command::Solve {
                file: one(&self.plain)?,
                settings,
                rows,
            }),
            CommandName::Check => {
                let (file, certificate) = two(&self.plain)?;
                Some(Command::Check { file, certificate })
            }
            CommandName::Upgrade => {
                let (file, certificate) = two(&self.plain)?;
                Some(Command::Upgrade { file, certificate })
            }
            CommandName::Info => Some(Command::Info {
                file: one(&self.plain)?,
            }),
            CommandName::Gen => Some(Command::Gen {
                cards: number_from_to(LEAST_CARDS, MOST_CARDS, one(&self.plain)?)?,
            }),
            CommandName::Drill => Some(Command::Drill {
                cards: number_from_to(LEAST_CARDS, MOST_CARDS, one(&self.plain)?)?,
                settings,
                rows,
            }),
            CommandName::Plus => Some(Command::Plus {
                file: one(&self.plain)?,
                settings,
                rows,
            }),
            CommandName::Batch => unreachable!(),
        }
    }
}
