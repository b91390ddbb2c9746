//! What is said at the end of a run.
ghost use Rattle.std.specs.Prelude.{◌≡◌, ◌≢◌};
ghost use Rattle.def_outside.specs.Calls.{Says};
ghost use Rattle.xg_io.specs.Calls.{sink_call};
ghost use Rattle.def_program.specs.TextLines.{usage_line};
ghost use Rattle.xg_run.specs.Endings.{line_said, status_answered};

use xg_io::{Sink, write_all};
pub use xg_load::Ending;

/// Says the line of the end, if there is one, or the usage where the words name no command, and answers the exit
/// status. Whether `err` fails changes no status.
pub fn finish<E: Sink>(ending: &Option<Ending>, err: &mut E) -> u8
    ensures status { result ≡ status_answered ending.now }
    ensures silent { status_answered ending.now ≡ 0 → err.new ≡ err.old }
    ensures said { status_answered ending.now ≢ 0 → Says (sink_call E.Sink err.old err.new) (line_said ending.now) }
{
    match ending {
        Some(ending) => ending.finish(err),
        None => {
            let _ = write_all(err, usage());
            2
        }
    }
}

fn usage() -> &'static [u8]
    ensures { result.now ≡ usage_line }
{
    b"usage: xg_solve solve FILE [--rounds N] [--every N] [--scale N] [--workers N] [--atomic N] \
        | check FILE CERT | upgrade FILE CERT | info FILE | gen N | drill N | plus FILE | batch FILE...\n"
}
