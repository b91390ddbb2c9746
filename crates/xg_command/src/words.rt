//! The words of a call.
ghost use Rattle.std.specs.Prelude.{◌≡◌, [], ◌∷◌, ◌++◌, OnOk, OnErr, option_map};
ghost use Rattle.def_command.specs.Grammar.{command_of_words};
ghost use Rattle.xg_command.specs.Values.{command_value};

use crate::command::Command;
use crate::names::CommandName;
use crate::reading::read_words;
use std::alloc::{AllocError, Global};
use std::marker::Model;

/// The words of a call, without the program's own name.
#[derive(Drop)]
pub struct Words {
    words: Vec<String>,
}

impl Model for Words {
    ghost use Rattle.std.specs.Prelude.{ℕ, List, map, string_bytes};

    ghost Value = { List (List ℕ) };

    ghost view = { λ w. map string_bytes w.words.items };
}

impl Words {
    /// No words.
    pub fn new(alloc: Global) -> Words
        ensures { result ≡ [] }
    {
        Words {
            words: Vec::new(alloc),
        }
    }

    /// Puts a word last.
    pub fn push(&mut self, word: &str) -> Result<(), AllocError>
        ensures ok { OnOk result (self.new ≡ self.old ++ word.now ∷ []) }
        ensures err { OnErr result (self.new ≡ self.old) }
    {
        let alloc = *self.words.allocator();
        let word = String::from_str(alloc, word)?;
        self.words.push(word)?;
        Ok(())
    }

    /// The command that the words name, or none where they aren't a call of one. The first word is the command; an
    /// option is written as `--rounds 10` or as `--rounds=10`, anywhere behind it and at most once.
    pub fn command(&self) -> Option<Command<'_>>
        ensures { option_map command_value result ≡ command_of_words self.now }
    {
        let [first, rest @ ..] = self.words.as_slice() else {
            return None;
        };
        let name = CommandName::of_word(first.as_str())?;
        let reading = read_words(name, rest)?;
        reading.command(name)
    }
}
