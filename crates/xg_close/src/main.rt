//! The program: `xg_close` reads a game file, searches plans of both players, and prints a certificate as narrow as it
//! is asked. What it promises is the contract of `xg_close_run::run`.
#![tactic(auto)]

use std::alloc::Global;
use std::process::ExitCode;
use xg_close_run::run;
use xg_close_words::{given_words, read_words, say};
use xg_io::{RealFiles, RealSink};

fn main(rt: HostRuntime) -> ExitCode {
    let words = match given_words(&rt) {
        Ok(words) => words,
        Err(status) => return ExitCode::from(status),
    };
    let status = match read_words(rt.alloc(), &words) {
        Ok(asked) => {
            let mut files = RealFiles::new(&rt);
            let mut out = RealSink::new(rt.stdout());
            let mut err = RealSink::new(rt.stderr());
            run(rt.alloc(), &asked, &mut files, &mut out, &mut err)
        }
        Err(error) => say(&rt, &error),
    };
    ExitCode::from(status)
}
