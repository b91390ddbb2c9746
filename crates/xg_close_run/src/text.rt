//! The text that is written.
use xg_cert::{Outcome, write_cert};
use xg_io::{Sink, Writable, WriteFault};
use xg_seq::SeqForm;

/// The certificate of what a search left.
#[derive(Clone, Copy)]
pub(crate) struct CertificateText<'a> {
    pub(crate) form: &'a SeqForm,
    pub(crate) outcome: &'a Outcome,
}

impl Writable for CertificateText<'_> {
    ghost use Rattle.def_cert_accepted.specs.OfOutcome.{certificate_of};
    ghost use Rattle.def_cert_text.specs.CertText.{versioned_text};
    ghost use Rattle.def_cert_versions.specs.Verdict.{in_version_two};
    ghost use Rattle.def_cert_accepted.specs.Writable.{IsOutcomeOf};

    ghost bytes = { λ t. versioned_text (in_version_two (certificate_of t.form.now t.outcome.now)) };

    ghost can_write = { λ t. IsOutcomeOf t.form.now t.outcome.now };

    fn write<O: Sink>(&self, out: &mut O) -> Result<(), WriteFault> {
        write_cert(self.form, self.outcome, out)
    }
}
