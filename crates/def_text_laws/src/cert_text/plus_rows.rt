//! Texts of runs of CFR+.

ghost use Rattle.std.specs.Prelude.{◌≡◌, [], ◌∷◌, codes, Ok, Err};
ghost use Rattle.def_cert_text.specs.declared.fault.CertFault.TheVariants.{CertSyntax};
ghost use Rattle.def_cert_text.specs.CertText.{versioned_in};
ghost use Rattle.def_cert_text.specs.PlusText.{one_leaf_of_plus, one_leaf_lines_of_plus, plus_text, six_rounds};
ghost use Rattle.def_cert_text.specs.PlusText.{six_rounds_lines};
ghost use Rattle.def_cert_text.specs.PlusText.{without_rounds, without_rounds_lines};
ghost use Rattle.def_cert_text.specs.Texts.{text_of_lines};
ghost use Rattle.def_cert_text.specs.VersionTexts.{with_lines};

/// Rows: whole texts: six rounds, a leaf alone, no round; and what reading them as certificates gives.
#[tactic(auto, unfolding(def_fraction::specs::Divisors::gcd))]
pub fn plus_texts()
    ensures six_rounds { plus_text six_rounds ≡ text_of_lines six_rounds_lines }
    ensures one_leaf { plus_text one_leaf_of_plus ≡ text_of_lines one_leaf_lines_of_plus }
    ensures no_round { plus_text without_rounds ≡ text_of_lines without_rounds_lines }
    ensures no_certificate { versioned_in (text_of_lines six_rounds_lines) ≡ Err (CertSyntax 0) }
    ensures as_certificate { versioned_in (with_lines six_rounds_lines 1 1 (codes "XGCERT 2" ∷ [])) ≡ Ok six_rounds }
{}
