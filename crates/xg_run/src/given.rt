//! The words of a call, as the system gives them.
ghost use Rattle.std.specs.Prelude.{◌≡◌, ◌≢◌};
ghost use Rattle.std.specs.IoError.{error_kind};

use std::io::ErrorKind;
use std::rt::Env;
use std::{env, io};
use xg_command::Words;

/// The words that the program was given, without its own name.
pub fn given_words<R: Env + AllocGlobal>(rt: &R) -> io::Result<Words> {
    let mut words = Words::new(rt.alloc());
    for word in env::args(rt)?.skip(1) {
        words.push(word.as_str())?;
    }
    Ok(words)
}

/// The status where the words can't be had: memory ran out, or one isn't UTF-8.
pub fn status_without_words(error: &io::Error) -> u8
    ensures no_memory { error_kind error.now ≡ ErrorKind.OutOfMemory → result ≡ 5 }
    ensures not_text { error_kind error.now ≢ ErrorKind.OutOfMemory → result ≡ 2 }
{
    if error.kind() == ErrorKind::OutOfMemory {
        return 5;
    }
    2
}
