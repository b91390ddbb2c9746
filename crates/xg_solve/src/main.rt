//! The program: `xg_solve` reads a game file and prints the text of its solution. What it promises is the contract of
//! `xg_run::run`.
#![tactic(auto)]

use std::process::ExitCode;
use xg_io::{OpenGate, RealFiles, RealSink};
use xg_run::{given_words, run, status_without_words};

fn main(rt: HostRuntime) -> ExitCode {
    let words = match given_words(&rt) {
        Ok(words) => words,
        Err(error) => return ExitCode::from(status_without_words(&error)),
    };
    let mut files = RealFiles::new(&rt);
    let mut out = RealSink::new(rt.stdout());
    let mut err = RealSink::new(rt.stderr());
    let status = run(
        &rt,
        rt.alloc(),
        &words,
        &mut files,
        &mut out,
        &mut err,
        &OpenGate,
    );
    ExitCode::from(status)
}
