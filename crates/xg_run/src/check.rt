//! Checking a certificate, and upgrading one that is accepted.
ghost use Rattle.std.specs.Prelude.{◌≤◌, IsTrue, Ok, length};
ghost use Rattle.def_outside.specs.Calls.{OpensAtMost};
ghost use Rattle.xg_io.specs.Calls.{files_call, sink_call};
ghost use Rattle.def_outside.specs.Cause.{HasCause};
ghost use Rattle.def_file.specs.Reading.{most_bytes};
ghost use Rattle.def_cert_text.specs.CertText.{versioned_in};
ghost use Rattle.def_cert_versions.specs.Upgrade.{IsUpgradable};
ghost use Rattle.def_check.specs.Check.{most_cert_bytes};
ghost use Rattle.def_program.specs.CheckLines.{verdict_text};
ghost use Rattle.def_program.specs.Meaning.{BothMean};
ghost use Rattle.def_outside.specs.Sinks.{Writes};
ghost use Rattle.xg_check.specs.Answers.{verdict_of};
ghost use Rattle.xg_run.specs.ChecksEnd.{EndsCheck, report_text};
ghost use Rattle.xg_run.specs.Concludes.{Concludes};
ghost use Rattle.def_program_opens.specs.MayOpen.{IsNotTooLong};

use crate::both::read_both;
use crate::check_lines::check_fault_line;
use crate::ending::Ending;
use std::alloc::Global;
use xg_cert::{Cert, put_ends_line, write_upgraded};
use xg_check::{Accepted, Verdict, accept};
use xg_io::{Files, Sink, Writable, WriteFault, write_all, write_paged};

/// What is written of a certificate that is accepted.
#[derive(Clone, Copy)]
pub enum Report {
    /// The line of its verdict.
    Verdict,
    /// Its text in the second version.
    Upgrade,
}

/// What a certificate says that was read, in the second version.
#[derive(Clone, Copy)]
struct UpgradedText<'a> {
    cert: &'a Cert,
}

impl Writable for UpgradedText<'_> {
    ghost use Rattle.def_cert_text.specs.CertText.{versioned_text};
    ghost use Rattle.def_cert_versions.specs.Upgrade.{IsUpgradable};
    ghost use Rattle.def_cert_versions.specs.Verdict.{upgraded};

    ghost bytes = { λ t. versioned_text (upgraded t.cert.now) };

    ghost can_write = { λ t. IsUpgradable t.cert.now };

    fn write<O: Sink>(&self, out: &mut O) -> Result<(), WriteFault> {
        write_upgraded(self.cert, out)
    }
}

/// Checks a certificate against the game of a file, and writes this of one that is accepted.
pub fn check<F: Files, O: Sink>(
    alloc: Global,
    report: Report,
    file: &str,
    certificate: &str,
    files: &mut F,
    out: &mut O,
) -> Ending
    requires file { IsTrue (F.may_open files.old file.now) }
    requires certificate { IsNotTooLong (F.told files.old file.now) → IsTrue (F.may_open files.old certificate.now) }
    ensures concludes { Concludes (Unit {0})
        (BothMean (λ bytes. report_text report (versioned_in bytes)) (F.told files.old file.now)
        (F.told files.old certificate.now))
        (files_call F.Files files.old files.new) (sink_call O.Sink out.old out.new) result }
    ensures opens { OpensAtMost (files_call F.Files files.old files.new) 2 }
{
    match read_both(alloc, files, file, certificate) {
        Ok(both) => check_bytes(alloc, report, &both.file, &both.certificate, out),
        Err(ending) => ending,
    }
}

/// Checks the bytes of a certificate against those of a file.
fn check_bytes<O: Sink>(
    alloc: Global,
    report: Report,
    file: &[u8],
    certificate: &[u8],
    out: &mut O,
) -> Ending
    requires file { length file.now ≤ most_bytes }
    requires certificate { length certificate.now ≤ most_cert_bytes }
    ensures { EndsCheck (report_text report (versioned_in certificate.now)) file.now certificate.now
        (sink_call O.Sink out.old out.new) result }
{
    match accept(alloc, file, certificate) {
        Ok(accepted) => {
            let written = write_report(report, &accepted, out);
            drop(accepted);
            Ending::of_written(written)
        }
        Err(fault) => Ending::of_line(check_fault_line(alloc, fault)),
    }
}

/// Writes this of what is accepted. After an error a front of it was written.
fn write_report<O: Sink>(report: Report, accepted: &Accepted, out: &mut O) -> Result<(), WriteFault>
    requires { IsUpgradable accepted.now.cert }
    ensures text { Writes (O.written out.old) (O.written out.new)
        (report_text report (Ok accepted.now.cert) (verdict_of accepted.now.verdict)) result }
    ensures cause { HasCause (O.faults out.old) (O.faults out.new) result }
{
    match report {
        Report::Verdict => write_verdict(accepted.verdict, out),
        Report::Upgrade => write_paged(
            out,
            &UpgradedText {
                cert: &accepted.cert,
            },
        ),
    }
}

/// Writes the line of a verdict. After an error a front of it was written.
#[tactic(auto, unfolding(def_cert_text::specs::Fields::items_text))]
fn write_verdict<O: Sink>(verdict: Verdict, out: &mut O) -> Result<(), WriteFault>
    ensures text { Writes (O.written out.old) (O.written out.new) (verdict_text (verdict_of verdict)) result }
    ensures cause { HasCause (O.faults out.old) (O.faults out.new) result }
{
    match verdict {
        Verdict::HeadOnly => write_all(out, b"accepted no bounds\n"),
        Verdict::Bounds { low, high } => put_ends_line(b"accepted", low, high, out),
    }
}
