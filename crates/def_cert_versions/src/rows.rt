//! Verdicts on traces in both versions, by which alone a wrong number of the first line is refused.

ghost use Rattle.std.specs.Prelude.{◌≡◌, [], ◌∷◌, pos, Err};
ghost use Rattle.def_fraction.specs.Fraction.{negative_of};
ghost use Rattle.def_cert_verdict.specs.declared.fault.TestFault.TheVariants.{TraceWidens};
ghost use Rattle.def_cert_verdict.specs.Changes.{line, traced};
ghost use Rattle.def_cert_text.specs.VersionTexts.{shared_head};
ghost use Rattle.def_cert_versions.specs.Rows.{verdict_in_one, verdict_in_two};

/// Rows: traces that widen, by the lines of both versions.
#[tactic(auto, unfolding(def_fraction::specs::Divisors::gcd, def_fraction::specs::Fraction::fraction_of))]
pub fn traces_by_their_lines()
    ensures second_line_of_one { verdict_in_one shared_head (line 1 (traced 1 1 (pos 99999) 1 (pos 6)) ∷ [])
        ≡ Err (TraceWidens 9) }
    ensures third_line_of_one { verdict_in_one shared_head
        (line 2 (traced 2 2 (negative_of 3) 1 (negative_of 99999)) ∷ [])
        ≡ Err (TraceWidens 10) }
    ensures second_line_of_two { verdict_in_two shared_head (line 1 (traced 1 1 (pos 99999) 1 (pos 6)) ∷ [])
        ≡ Err (TraceWidens 10) }
    ensures third_line_of_two { verdict_in_two shared_head
        (line 2 (traced 2 2 (negative_of 3) 1 (negative_of 99999)) ∷ [])
        ≡ Err (TraceWidens 11) }
{}
