//! Reading a text.
ghost use Rattle.std.specs.Prelude.{◌≡◌, Ok, Err, IfOk};
ghost use Rattle.def_cert_text.specs.Versions.{VersionedCertificate, VersionedFits};
ghost use Rattle.def_cert_text.specs.declared.fault.CertFault as fault;
ghost use Rattle.def_cert_text.specs.CertText.{bounds_lines, last_lines};
ghost use Rattle.def_cert_text.specs.CertText.{versioned_in, versioned_text};
ghost use Rattle.def_cert_text.specs.FirstFault.{FirstVersionedFault};
ghost use Rattle.xg_cert.specs.declared.refused.CertRefused.TheVariants as refused;
ghost use Rattle.xg_cert.specs.Answers.{AnswersCertificate, Gives, GivesValueFor, text_read};
ghost use Rattle.xg_outcome.specs.Outcome.{head_of};
ghost use Rattle.xg_cert.specs.ReadCert.{IsReadHead, bounds_of};
ghost use Rattle.xg_cert.specs.ReadCert.{second_where_given};

use crate::cert::{BoundsLines, Cert, CertLines};
use crate::read_lines::{ends_line, head_lines};
use crate::read_lists::{plan_lines, reply_lines, trace_lines};
use crate::refused::CertRefused;
use def_cert_text::{CertFault, TextVersion};
use std::alloc::Global;
use xg_cert_fields::FieldReader;
use xg_frac::Ratio;
use xg_outcome::Head;

/// Reads a certificate from the bytes of its text, of either version.
///
/// Memory apart, the answer is the certificate that the bytes say, or their first fault.
pub fn read_cert(alloc: Global, bytes: &[u8]) -> Result<Cert, CertRefused>
    ensures exact { AnswersCertificate result (versioned_in bytes.now) }

    // What is read is within its ranges and the bytes are its text, and each such text is read.
    ensures fits { IfOk result VersionedFits }
    ensures text { IfOk result (λ cert. bytes.now ≡ versioned_text cert) }
    ensures only { (cert : VersionedCertificate) → VersionedFits cert → bytes.now ≡ versioned_text cert
        → AnswersCertificate result (Ok cert) }

    // A fault is the first of the bytes, and the first is the fault.
    ensures first { (f : fault.CertFault) → result ≡ Err (refused.Cert f) → FirstVersionedFault bytes.now f }
    ensures faults { (f : fault.CertFault) → FirstVersionedFault bytes.now f → AnswersCertificate result (Err f) }
{
    read_text(alloc, bytes)
}

/// The same, by what reading gives.
#[tactic(auto, unfolding(def_cert_text::specs::CertText::versioned_in))]
fn read_text(alloc: Global, bytes: &[u8]) -> Result<Cert, CertRefused>
    ensures { AnswersCertificate result (versioned_in bytes.now) }
{
    let mut reader = FieldReader::new(bytes);
    reader.word(b"XGCERT", b' ')?;
    let version = reader.version()?;
    let head = head_lines(&mut reader, version)?;
    let bounds = if head.rounds == 0 {
        None
    } else {
        Some(bounds_lines(&mut reader, alloc, &head)?)
    };
    match last_lines(&mut reader, version, &head) {
        Ok(second) => Ok(Cert {
            lines: CertLines {
                version,
                head,
                bounds,
                second,
            },
        }),
        Err(fault) => {
            drop(bounds);
            Err(CertRefused::Cert(fault))
        }
    }
}

/// All below the bracket: that of player two's own payoff, where it is there, and the last line, which ends the text.
fn last_lines(
    reader: &mut FieldReader<'_>,
    version: TextVersion,
    head: &Head,
) -> Result<Option<(Ratio, Ratio)>, CertFault>
    ensures { Gives (λ second. (second_where_given second, tt)) result
        (text_read (last_lines version (head_of head.now)) reader.old.total reader.old.left) }
{
    let second = if version == TextVersion::One || head.rounds == 0 {
        None
    } else {
        Some(ends_line(reader, b"second")?)
    };
    reader.word(b"end", b'\n')?;
    reader.end()?;
    Ok(second)
}

/// All from the trace to the bracket.
fn bounds_lines(
    reader: &mut FieldReader<'_>,
    alloc: Global,
    head: &Head,
) -> Result<BoundsLines, CertRefused>
    requires { IsReadHead head.now }
    ensures exact { GivesValueFor bounds_of result reader.new.left
        ((bounds_lines (head_of head.now)).read reader.old.total reader.old.left) }
    ensures total { reader.new.total ≡ reader.old.total }
{
    let trace = trace_lines(reader, alloc, head)?;
    let plan_one = plan_lines(reader, alloc, b"1", head.sets.0)?;
    let reply_two = reply_lines(reader, alloc, b"2", head.sets.1)?;
    let plan_two = plan_lines(reader, alloc, b"2", head.sets.1)?;
    let reply_one = reply_lines(reader, alloc, b"1", head.sets.0)?;
    let (low, high) = ends_line(reader, b"bracket")?;
    Ok(BoundsLines {
        trace,
        plan_one,
        reply_two,
        plan_two,
        reply_one,
        low,
        high,
    })
}
