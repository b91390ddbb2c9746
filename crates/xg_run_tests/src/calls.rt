//! Calls of the program on files and streams in memory.
use std::alloc::{AllocError, Global};
use xg_memory::MemFiles;
use xg_run::Words;

/// The files, with one of this name. The call with the number `failing` fails.
pub fn files_with(
    alloc: Global,
    name: &str,
    game: &str,
    failing: u64,
) -> Result<MemFiles, AllocError> {
    let mut files = MemFiles::new(alloc, &[failing])?;
    files.add(name, game.as_bytes())?;
    Ok(files)
}

fn push_line(words: &mut Words, line: &str) -> Result<(), AllocError> {
    for word in line.split_whitespace() {
        words.push(word)?;
    }
    Ok(())
}

/// The words of these lines.
pub fn words_of(alloc: Global, lines: &[&str]) -> Result<Words, AllocError> {
    let mut words = Words::new(alloc);
    for &line in lines {
        push_line(&mut words, line)?;
    }
    Ok(words)
}
