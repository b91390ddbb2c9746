//! The text of what rounds left.
ghost use Rattle.xg_io.specs.Calls.{sink_call};
ghost use Rattle.def_cert_accepted.specs.Writable.{IsOutcomeOf};
ghost use Rattle.xg_batch.specs.Texts.{left_text};
ghost use Rattle.xg_load.specs.Endings.{Tells};

use xg_cert::{Outcome, write_cert, write_plus};
use xg_engine::Variant;
use xg_io::{Sink, Writable, WriteFault, write_paged};
use xg_load::Ending;
use xg_seq::SeqForm;

/// What rounds of a variant left: the certificate of the outcome, or the text of CFR+.
#[derive(Clone, Copy)]
pub(crate) struct PlayedText<'a> {
    pub(crate) variant: Variant,
    pub(crate) form: &'a SeqForm,
    pub(crate) outcome: &'a Outcome,
}

impl Writable for PlayedText<'_> {
    ghost use Rattle.def_cert_accepted.specs.OfOutcome.{certificate_of};
    ghost use Rattle.def_cert_versions.specs.Verdict.{in_version_two};
    ghost use Rattle.def_program.specs.Text.{text_of_variant};
    ghost use Rattle.def_cert_accepted.specs.Writable.{IsOutcomeOf};

    ghost bytes = { λ t. text_of_variant t.variant (in_version_two (certificate_of t.form.now t.outcome.now)) };

    ghost can_write = { λ t. IsOutcomeOf t.form.now t.outcome.now };

    fn write<O: Sink>(&self, out: &mut O) -> Result<(), WriteFault> {
        match self.variant {
            Variant::Plain => write_cert(self.form, self.outcome, out),
            Variant::Plus => write_plus(self.form, self.outcome, out),
        }
    }
}

/// Writes what rounds of a variant left.
pub(crate) fn write_outcome<O: Sink>(
    variant: Variant,
    form: &SeqForm,
    outcome: &Outcome,
    out: &mut O,
) -> Ending
    requires { IsOutcomeOf form.now outcome.now }
    ensures { Tells (left_text variant form.now outcome.now) (sink_call O.Sink out.old out.new) result }
{
    let text = PlayedText {
        variant,
        form,
        outcome,
    };
    Ending::of_written(write_paged(out, &text))
}
