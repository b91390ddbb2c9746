//! Texts of certificates of both versions, and where reading stops in changed ones.

ghost use Rattle.std.specs.Prelude.{◌≡◌, [], ◌∷◌, codes, length, pos, Ok, Err};
ghost use Rattle.def_fraction.specs.Fraction.{negative_of, over};
ghost use Rattle.def_cert_text.specs.declared.fault.CertFault.TheVariants.{CertNumber, CertShort, CertSyntax};
ghost use Rattle.def_cert_text.specs.declared.fault.CertFault.TheVariants.{CertTrailing, CertVersion};
ghost use Rattle.def_cert_text.specs.CertText.{versioned_in, versioned_text};
ghost use Rattle.def_cert_text.specs.Laws.{versioned_head};
ghost use Rattle.def_cert_text.specs.Texts.{scale_one_lines, text_of_lines};
ghost use Rattle.def_cert_text.specs.Versions.{in_version_one};
ghost use Rattle.def_cert_text.specs.declared.version.TextVersion.TheVariants as versions;
ghost use Rattle.def_cert_text.specs.VersionTexts.{finest, finest_certificate, finest_lines, finest_lines_one};
ghost use Rattle.def_cert_text.specs.VersionTexts.{no_round_head};
ghost use Rattle.def_cert_text.specs.VersionTexts.{no_round_lines, no_round_lines_one, no_sum_head, no_sum_lines};
ghost use Rattle.def_cert_text.specs.VersionTexts.{no_sum_lines_one, scale_one_certificate, scale_one_lines_two};
ghost use Rattle.def_cert_text.specs.VersionTexts.{scale_one_two};
ghost use Rattle.def_cert_text.specs.VersionTexts.{shared, shared_certificate, shared_lines, shared_lines_one};
ghost use Rattle.def_cert_text.specs.VersionTexts.{with_lines};
ghost use Rattle.def_cert_text.specs.VersionTexts.{with_second_ends, with_sum};

/// Rows: whole texts of both versions: three rounds, two rounds, no round, and a game whose unit is the greatest.
pub fn texts_of_both()
    ensures shared_one { versioned_text (in_version_one shared_certificate) ≡ text_of_lines shared_lines_one }
    ensures shared_two { versioned_text shared ≡ text_of_lines shared_lines }
    ensures pennies_one { versioned_text (in_version_one scale_one_certificate) ≡ text_of_lines scale_one_lines }
    ensures pennies_two { versioned_text scale_one_two ≡ text_of_lines scale_one_lines_two }
    ensures no_round_one { versioned_text (versioned_head versions.One no_round_head)
        ≡ text_of_lines no_round_lines_one }
    ensures no_round_two { versioned_text (versioned_head versions.Two no_round_head) ≡ text_of_lines no_round_lines }
    ensures no_sum_one { versioned_text (versioned_head versions.One no_sum_head) ≡ text_of_lines no_sum_lines_one }
    ensures no_sum_two { versioned_text (versioned_head versions.Two no_sum_head) ≡ text_of_lines no_sum_lines }
    ensures finest_one { versioned_text (in_version_one finest_certificate) ≡ text_of_lines finest_lines_one }
    ensures finest_two { versioned_text finest ≡ text_of_lines finest_lines }
    ensures shared_length { length (text_of_lines shared_lines) ≡ 302 }
{}

/// Rows: the text of three rounds, with another first line. A version is `1` or `2`, and nothing else.
#[tactic(auto, unfolding(def_fraction::specs::Divisors::gcd))]
pub fn versions_of_texts()
    ensures version_one { versioned_in (text_of_lines shared_lines_one) ≡ Ok (in_version_one shared_certificate) }
    ensures version_two { versioned_in (text_of_lines shared_lines) ≡ Ok shared }
    ensures zero { versioned_in (with_lines shared_lines 1 1 (codes "XGCERT 0" ∷ [])) ≡ Err CertVersion }
    ensures three { versioned_in (with_lines shared_lines 1 1 (codes "XGCERT 3" ∷ [])) ≡ Err CertVersion }
    ensures padded { versioned_in (with_lines shared_lines 1 1 (codes "XGCERT 02" ∷ [])) ≡ Err CertVersion }
    ensures decimal_point { versioned_in (with_lines shared_lines 1 1 (codes "XGCERT 2.0" ∷ [])) ≡ Err CertVersion }
    ensures negative { versioned_in (with_lines shared_lines 1 1 (codes "XGCERT -2" ∷ [])) ≡ Err CertVersion }
    ensures plus { versioned_in (with_lines shared_lines 1 1 (codes "XGCERT +2" ∷ [])) ≡ Err CertVersion }
    ensures over_one { versioned_in (with_lines shared_lines 1 1 (codes "XGCERT 1/1" ∷ [])) ≡ Err CertVersion }
    ensures empty { versioned_in (with_lines shared_lines 1 1 (codes "XGCERT " ∷ [])) ≡ Err CertVersion }
    ensures word { versioned_in (with_lines shared_lines 1 1 (codes "XGCERT two" ∷ [])) ≡ Err CertVersion }
    ensures twelve { versioned_in (with_lines shared_lines 1 1 (codes "XGCERT 12" ∷ [])) ≡ Err CertVersion }
    ensures three_alone { versioned_in (with_lines no_round_lines 1 10 (codes "XGCERT 3" ∷ [])) ≡ Err CertShort }
    ensures two_alone { versioned_in (with_lines no_round_lines 2 10 []) ≡ Err CertShort }
    ensures a_field_more { versioned_in (with_lines shared_lines 1 1 (codes "XGCERT 2 1" ∷ [])) ≡ Err (CertSyntax 8) }
    ensures two_says_one { versioned_in (with_lines shared_lines 1 1 (codes "XGCERT 1" ∷ [])) ≡ Err (CertSyntax 65) }
    ensures one_says_two { versioned_in (with_lines shared_lines_one 1 1 (codes "XGCERT 2" ∷ []))
        ≡ Err (CertSyntax 56) }
    ensures one_without_sum_says_two { versioned_in (with_lines scale_one_lines 1 1 (codes "XGCERT 2" ∷ []))
        ≡ Err (CertSyntax 63) }
    ensures other_word { versioned_in (with_lines shared_lines 1 1 (codes "XGPLUS 1" ∷ [])) ≡ Err (CertSyntax 0) }
{}

/// Rows: texts of version 2, with a line more, less or at another place, and of version 1 with a line of version 2.
#[tactic(auto, unfolding(def_fraction::specs::Divisors::gcd))]
pub fn lines_of_version_two()
    ensures sum_behind_the_unit { versioned_in (with_lines shared_lines 5 5 (codes "unit 6 sum -5/6" ∷ []))
        ≡ Err (CertSyntax 56) }
    ensures space_behind_the_unit { versioned_in (with_lines shared_lines 5 5 (codes "unit 6 " ∷ []))
        ≡ Err (CertSyntax 56) }
    ensures sum_before_the_mass { versioned_in (with_lines shared_lines 6 7 (codes "sum -5/6" ∷ codes "mass 29" ∷ []))
        ≡ Err (CertSyntax 57) }
    ensures sum_after_the_rounds { versioned_in
        (with_lines shared_lines 7 8 (codes "rounds 3 every 1 scale 6" ∷ codes "sum -5/6" ∷ []))
        ≡ Err (CertSyntax 65) }
    ensures no_sum { versioned_in (with_lines scale_one_lines_two 7 7 []) ≡ Err (CertSyntax 63) }
    ensures sum_twice { versioned_in (with_lines scale_one_lines_two 8 7 (codes "sum 0" ∷ [])) ≡ Err (CertSyntax 69) }
    ensures second_before_the_bracket { versioned_in
        (with_lines shared_lines 22 23 (codes "second -1 -5/6" ∷ codes "bracket 0 1/6" ∷ []))
        ≡ Err (CertSyntax 269) }
    ensures no_second { versioned_in (with_lines shared_lines 23 23 []) ≡ Err (CertSyntax 283) }
    ensures second_after_the_end { versioned_in
        (with_lines shared_lines 23 24 (codes "end" ∷ codes "second -1 -5/6" ∷ []))
        ≡ Err (CertSyntax 283) }
    ensures second_twice { versioned_in (with_lines shared_lines 24 23 (codes "second -1 -5/6" ∷ []))
        ≡ Err (CertSyntax 298) }
    ensures second_of_one_number { versioned_in (with_lines shared_lines 23 23 (codes "second -1" ∷ []))
        ≡ Err (CertSyntax 292) }
    ensures second_of_three_numbers { versioned_in (with_lines shared_lines 23 23 (codes "second -1 -5/6 0" ∷ []))
        ≡ Err (CertSyntax 297) }
    ensures sum_line_in_version_one { versioned_in (with_lines scale_one_lines 7 6 (codes "sum 0" ∷ []))
        ≡ Err (CertSyntax 63) }
    ensures second_in_version_one { versioned_in (with_lines scale_one_lines 19 18 (codes "second 0 1" ∷ []))
        ≡ Err (CertSyntax 227) }
    ensures a_byte_more { versioned_in (with_lines shared_lines 25 25 (codes "x" ∷ [])) ≡ Err (CertTrailing 302) }
    ensures cut_before_the_second { versioned_in (with_lines shared_lines 23 24 []) ≡ Err CertShort }
    ensures cut_behind_the_second { versioned_in (with_lines shared_lines 24 25 []) ≡ Err CertShort }
    ensures cut_within_the_sum { versioned_in (with_lines shared_lines 7 25 (codes "sum -5" ∷ [])) ≡ Err CertShort }
    ensures no_round_no_sum { versioned_in (with_lines no_sum_lines 7 7 []) ≡ Err (CertSyntax 63) }
    ensures no_round_with_second { versioned_in (with_lines no_round_lines 9 8 (codes "second -1/3 -1/3" ∷ []))
        ≡ Err (CertSyntax 103) }
{}

/// Rows: the text of three rounds, with another sum: in lowest terms, 0 among them, and of parts of at most 2^62.
#[tactic(auto, unfolding(def_fraction::specs::Divisors::gcd))]
pub fn sums_of_version_two()
    ensures signed_zero { versioned_in (with_lines shared_lines 7 7 (codes "sum -0" ∷ [])) ≡ Err (CertNumber 69) }
    ensures zero_over_one { versioned_in (with_lines shared_lines 7 7 (codes "sum 0/1" ∷ [])) ≡ Err (CertNumber 69) }
    ensures zero_over_two { versioned_in (with_lines shared_lines 7 7 (codes "sum 0/2" ∷ [])) ≡ Err (CertNumber 69) }
    ensures not_lowest { versioned_in (with_lines shared_lines 7 7 (codes "sum -10/12" ∷ [])) ≡ Err (CertNumber 69) }
    ensures over_one { versioned_in (with_lines shared_lines 7 7 (codes "sum -5/1" ∷ [])) ≡ Err (CertNumber 69) }
    ensures over_zero { versioned_in (with_lines shared_lines 7 7 (codes "sum 5/0" ∷ [])) ≡ Err (CertNumber 69) }
    ensures negative_below { versioned_in (with_lines shared_lines 7 7 (codes "sum 5/-6" ∷ []))
        ≡ Err (CertNumber 69) }
    ensures plus { versioned_in (with_lines shared_lines 7 7 (codes "sum +5/6" ∷ [])) ≡ Err (CertNumber 69) }
    ensures empty { versioned_in (with_lines shared_lines 7 7 (codes "sum " ∷ [])) ≡ Err (CertNumber 69) }
    ensures decimal_point { versioned_in (with_lines shared_lines 7 7 (codes "sum -.5" ∷ [])) ≡ Err (CertNumber 69) }
    ensures past_the_limit { versioned_in (with_lines shared_lines 7 7 (codes "sum 4611686018427387905" ∷ []))
        ≡ Err (CertNumber 69) }
    ensures past_the_limit_below_zero { versioned_in
        (with_lines shared_lines 7 7 (codes "sum -4611686018427387905" ∷ []))
        ≡ Err (CertNumber 69) }
    ensures too_fine { versioned_in (with_lines shared_lines 7 7 (codes "sum 1/4611686018427387905" ∷ []))
        ≡ Err (CertNumber 69) }
    ensures zero { versioned_in (with_lines shared_lines 7 7 (codes "sum 0" ∷ [])) ≡ Ok (with_sum (over (pos 0) 1)) }
    ensures largest { versioned_in (with_lines shared_lines 7 7 (codes "sum 4611686018427387904" ∷ []))
        ≡ Ok (with_sum (over (pos 4611686018427387904) 1)) }
    ensures least { versioned_in (with_lines shared_lines 7 7 (codes "sum -4611686018427387904" ∷ []))
        ≡ Ok (with_sum (over (negative_of 4611686018427387904) 1)) }
    ensures finest { versioned_in (with_lines shared_lines 7 7 (codes "sum 1/4611686018427387904" ∷ []))
        ≡ Ok (with_sum (over (pos 1) 4611686018427387904)) }
    ensures largest_parts { versioned_in
        (with_lines shared_lines 7 7 (codes "sum 4611686018427387904/4611686018427387903" ∷ []))
        ≡ Ok (with_sum (over (pos 4611686018427387904) 4611686018427387903)) }
{}

/// Rows: the text of three rounds, with other ends in its last bracket: in lowest terms, and of parts of at most 2^100.
#[tactic(auto, unfolding(def_fraction::specs::Divisors::gcd))]
pub fn seconds_of_version_two()
    ensures low_signed_zero { versioned_in (with_lines shared_lines 23 23 (codes "second -0 -5/6" ∷ []))
        ≡ Err (CertNumber 290) }
    ensures high_signed_zero { versioned_in (with_lines shared_lines 23 23 (codes "second -1 -0" ∷ []))
        ≡ Err (CertNumber 293) }
    ensures low_one_over_one { versioned_in (with_lines shared_lines 23 23 (codes "second 2/2 -5/6" ∷ []))
        ≡ Err (CertNumber 290) }
    ensures high_one_over_one { versioned_in (with_lines shared_lines 23 23 (codes "second -1 2/2" ∷ []))
        ≡ Err (CertNumber 293) }
    ensures low_not_lowest { versioned_in (with_lines shared_lines 23 23 (codes "second -6/6 -5/6" ∷ []))
        ≡ Err (CertNumber 290) }
    ensures high_not_lowest { versioned_in (with_lines shared_lines 23 23 (codes "second -1 -6/6" ∷ []))
        ≡ Err (CertNumber 293) }
    ensures low_over_zero { versioned_in (with_lines shared_lines 23 23 (codes "second 1/0 -5/6" ∷ []))
        ≡ Err (CertNumber 290) }
    ensures high_over_zero { versioned_in (with_lines shared_lines 23 23 (codes "second -1 1/0" ∷ []))
        ≡ Err (CertNumber 293) }
    ensures low_plus { versioned_in (with_lines shared_lines 23 23 (codes "second +1 -5/6" ∷ []))
        ≡ Err (CertNumber 290) }
    ensures high_plus { versioned_in (with_lines shared_lines 23 23 (codes "second -1 +1" ∷ []))
        ≡ Err (CertNumber 293) }
    ensures low_empty { versioned_in (with_lines shared_lines 23 23 (codes "second  -5/6" ∷ []))
        ≡ Err (CertNumber 290) }
    ensures high_empty { versioned_in (with_lines shared_lines 23 23 (codes "second -1 " ∷ []))
        ≡ Err (CertNumber 293) }
    ensures low_decimal_point { versioned_in (with_lines shared_lines 23 23 (codes "second 1.5 -5/6" ∷ []))
        ≡ Err (CertNumber 290) }
    ensures high_decimal_point { versioned_in (with_lines shared_lines 23 23 (codes "second -1 1.5" ∷ []))
        ≡ Err (CertNumber 293) }
    ensures low_past_the_limit { versioned_in
        (with_lines shared_lines 23 23 (codes "second 1267650600228229401496703205377 -5/6" ∷ []))
        ≡ Err (CertNumber 290) }
    ensures high_past_the_limit { versioned_in
        (with_lines shared_lines 23 23 (codes "second -1 1267650600228229401496703205377" ∷ []))
        ≡ Err (CertNumber 293) }
    ensures low_past_the_limit_below_zero { versioned_in
        (with_lines shared_lines 23 23 (codes "second -1267650600228229401496703205377 -5/6" ∷ []))
        ≡ Err (CertNumber 290) }
    ensures high_past_the_limit_below_zero { versioned_in
        (with_lines shared_lines 23 23 (codes "second -1 -1267650600228229401496703205377" ∷ []))
        ≡ Err (CertNumber 293) }
    ensures low_too_fine { versioned_in
        (with_lines shared_lines 23 23 (codes "second 1/1267650600228229401496703205377 -5/6" ∷ []))
        ≡ Err (CertNumber 290) }
    ensures high_too_fine { versioned_in
        (with_lines shared_lines 23 23 (codes "second -1 1/1267650600228229401496703205377" ∷ []))
        ≡ Err (CertNumber 293) }
    ensures low_zero { versioned_in (with_lines shared_lines 23 23 (codes "second 0 -5/6" ∷ []))
        ≡ Ok (with_second_ends (over (pos 0) 1) (over (negative_of 5) 6)) }
    ensures high_zero { versioned_in (with_lines shared_lines 23 23 (codes "second -1 0" ∷ []))
        ≡ Ok (with_second_ends (over (negative_of 1) 1) (over (pos 0) 1)) }
    ensures low_largest { versioned_in
        (with_lines shared_lines 23 23 (codes "second 1267650600228229401496703205376 -5/6" ∷ []))
        ≡ Ok (with_second_ends (over (pos 1267650600228229401496703205376) 1) (over (negative_of 5) 6)) }
    ensures high_largest { versioned_in
        (with_lines shared_lines 23 23 (codes "second -1 1267650600228229401496703205376" ∷ []))
        ≡ Ok (with_second_ends (over (negative_of 1) 1) (over (pos 1267650600228229401496703205376) 1)) }
    ensures low_least { versioned_in
        (with_lines shared_lines 23 23 (codes "second -1267650600228229401496703205376 -5/6" ∷ []))
        ≡ Ok (with_second_ends (over (negative_of 1267650600228229401496703205376) 1) (over (negative_of 5) 6)) }
    ensures high_least { versioned_in
        (with_lines shared_lines 23 23 (codes "second -1 -1267650600228229401496703205376" ∷ []))
        ≡ Ok (with_second_ends (over (negative_of 1) 1) (over (negative_of 1267650600228229401496703205376) 1)) }
    ensures low_finest { versioned_in
        (with_lines shared_lines 23 23 (codes "second 1/1267650600228229401496703205376 -5/6" ∷ []))
        ≡ Ok (with_second_ends (over (pos 1) 1267650600228229401496703205376) (over (negative_of 5) 6)) }
    ensures high_finest { versioned_in
        (with_lines shared_lines 23 23 (codes "second -1 1/1267650600228229401496703205376" ∷ []))
        ≡ Ok (with_second_ends (over (negative_of 1) 1) (over (pos 1) 1267650600228229401496703205376)) }
{}
