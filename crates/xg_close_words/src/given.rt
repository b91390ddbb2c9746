//! The words as the system gives them, and saying what `clap` says.
use clap::Error;
use clap::error::ErrorKind;
use std::rt::Env;
use std::{env, io};

/// The words that the program was given, without its own name, or the status where they can't be had: 5 where memory
/// ran out, and 2 where one isn't UTF-8.
pub fn given_words<R: Env + AllocGlobal>(rt: &R) -> Result<Vec<String>, u8> {
    match words(rt) {
        Ok(words) => Ok(words),
        Err(error) if error.kind() == io::ErrorKind::OutOfMemory => Err(5),
        Err(_) => Err(2),
    }
}

fn words<R: Env + AllocGlobal>(rt: &R) -> io::Result<Vec<String>> {
    Ok(env::args(rt)?.skip(1).collect(rt.alloc())?)
}

/// Prints what `clap` says, and answers the status that goes with it: 0 for help and the version, 2 for words that
/// aren't taken, 5 where memory ran out.
pub fn say<R: Print + Eprint>(rt: &R, error: &Error) -> u8 {
    if error.kind() == ErrorKind::OutOfMemory {
        let _ = rt.eprint(&"want of memory\n");
        return 5;
    }
    let _ = error.print(rt);
    if error.use_stderr() { 2 } else { 0 }
}
