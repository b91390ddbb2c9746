//! Texts of version 1 that are known from outside, and where reading stops in changed ones.

ghost use Rattle.std.specs.Prelude.{◌≡◌, [], ◌∷◌, ◌++◌, codes, drop, length, pos, slice_set, take, Ok, Err};
ghost use Rattle.def_cert_verdict.specs.Kuhn.{kuhn_head, kuhn_bounds};
ghost use Rattle.def_cert_verdict.specs.OneMover.{one_mover_head, one_mover_bounds};
ghost use Rattle.def_cert_verdict.specs.Pennies.{pennies_bounds, pennies_head, scale_one_head, scale_one_bounds};
ghost use Rattle.def_fraction.specs.Fraction.{negative_of, over};
ghost use Rattle.def_cert_text.specs.Formats.{row_of_numbers};
ghost use Rattle.def_cert_text.specs.declared.fault.CertFault.TheVariants.{CertNumber, CertShort, CertSyntax};
ghost use Rattle.def_cert_text.specs.declared.fault.CertFault.TheVariants.{CertTrailing, CertVersion};
ghost use Rattle.def_cert_text.specs.CertText.{head_text, versioned_in, versioned_text};
ghost use Rattle.def_cert_text.specs.Laws.{versioned_head};
ghost use Rattle.def_cert_text.specs.Texts.{kuhn_lines, one_mover_lines, pennies_certificate, pennies_lines};
ghost use Rattle.def_cert_text.specs.Texts.{scale_one_lines, text_of_lines, with_line};
ghost use Rattle.def_cert_text.specs.Versions.{in_version_one};
ghost use Rattle.def_cert_text.specs.declared.version.TextVersion.TheVariants as versions;
ghost use Rattle.def_sums.specs.Limits.{most_root};
ghost use Rattle.def_cert_verdict.specs.Laws.{with_bounds};

/// Rows: whole texts of version 1: matching pennies, one mover, matching pennies with a small scale, and a head alone.
pub fn whole_texts()
    ensures pennies { versioned_text (in_version_one pennies_certificate) ≡ text_of_lines pennies_lines }
    ensures pennies_length { length (text_of_lines pennies_lines) ≡ 248 }
    ensures one_mover { versioned_text (in_version_one (with_bounds one_mover_head one_mover_bounds))
        ≡ text_of_lines one_mover_lines }
    ensures scale_one { versioned_text (in_version_one (with_bounds scale_one_head scale_one_bounds))
        ≡ text_of_lines scale_one_lines }
    ensures no_round { versioned_text (versioned_head versions.One (record pennies_head { rounds = 0 }))
        ≡ text_of_lines (take 6 pennies_lines ++ codes "rounds 0 every 1 scale 1048576" ∷ codes "end" ∷ []) }
    ensures head { head_text pennies_head ≡ text_of_lines (take 5 (drop 1 pennies_lines)) }
{}

/// Rows: the whole text of Kuhn poker.
pub fn kuhn_text()
    ensures { versioned_text (in_version_one (with_bounds kuhn_head kuhn_bounds)) ≡ text_of_lines kuhn_lines }
{}

/// Rows: the text of matching pennies, where a field isn't what is needed there.
pub fn fields_that_differ()
    ensures unchanged { versioned_in (text_of_lines pennies_lines) ≡ Ok (in_version_one pennies_certificate) }
    ensures a_line_more { versioned_in (with_line 7 (codes "rounds 2 every 1 scale 1048576")) ≡ Err (CertSyntax 110) }
    ensures other_word { versioned_in (with_line 1 (codes "XGCERTS 1")) ≡ Err (CertSyntax 0) }
    ensures other_player { versioned_in (with_line 9 (codes "plan 2 1048576")) ≡ Err (CertSyntax 115) }
    ensures version_two { versioned_in (with_line 1 (codes "XGCERT 2")) ≡ Err (CertSyntax 63) }
    ensures other_version { versioned_in (with_line 1 (codes "XGCERT 3")) ≡ Err CertVersion }
    ensures padded_version { versioned_in (with_line 1 (codes "XGCERT 01")) ≡ Err CertVersion }
    ensures not_lowest { versioned_in (with_line 17 (codes "bracket 0/1 0")) ≡ Err (CertNumber 240) }
    ensures signed_zero { versioned_in (with_line 17 (codes "bracket -0 0")) ≡ Err (CertNumber 240) }
    ensures root_zero { versioned_in (with_line 9 (codes "plan 1 0")) ≡ Err (CertNumber 117) }
{}

/// Rows: the same text with the sum of a game behind its unit. A sum of 0 isn't written.
#[tactic(auto, unfolding(def_fraction::specs::Divisors::gcd))]
pub fn sums_behind_the_unit()
    ensures whole { versioned_in (with_line 5 (codes "unit 1 sum 1"))
        ≡ Ok (in_version_one (with_bounds (record pennies_head { sum = over (pos 1) 1 }) pennies_bounds)) }
    ensures below_zero { versioned_in (with_line 5 (codes "unit 1 sum -2/3"))
        ≡ Ok (in_version_one (with_bounds (record pennies_head { sum = over (negative_of 2) 3 }) pennies_bounds)) }
    ensures largest { versioned_in (with_line 5 (codes "unit 1 sum 4611686018427387904"))
        ≡ Ok (in_version_one
        (with_bounds (record pennies_head { sum = over (pos 4611686018427387904) 1 }) pennies_bounds)) }
    ensures written { head_text (record pennies_head { sum = over (negative_of 2) 3 })
        ≡ text_of_lines (slice_set (take 5 (drop 1 pennies_lines)) 3 (codes "unit 1 sum -2/3")) }
    ensures zero { versioned_in (with_line 5 (codes "unit 1 sum 0")) ≡ Err (CertNumber 60) }
    ensures not_lowest { versioned_in (with_line 5 (codes "unit 1 sum 2/4")) ≡ Err (CertNumber 60) }
    ensures too_large { versioned_in (with_line 5 (codes "unit 1 sum 4611686018427387905")) ≡ Err (CertNumber 60) }
    ensures too_fine { versioned_in (with_line 5 (codes "unit 1 sum 1/4611686018427387905")) ≡ Err (CertNumber 60) }
    ensures plus { versioned_in (with_line 5 (codes "unit 1 sum +1")) ≡ Err (CertNumber 60) }
    ensures no_sum { versioned_in (with_line 5 (codes "unit 1 sum ")) ≡ Err (CertNumber 60) }
    ensures word_alone { versioned_in (with_line 5 (codes "unit 1 sum")) ≡ Err (CertSyntax 59) }
    ensures other_word { versioned_in (with_line 5 (codes "unit 1 sums 1")) ≡ Err (CertSyntax 56) }
    ensures no_word { versioned_in (with_line 5 (codes "unit 1 ")) ≡ Err (CertSyntax 56) }
    ensures a_space_more { versioned_in (with_line 5 (codes "unit 1 sum 1 ")) ≡ Err (CertSyntax 61) }
    ensures other_unit { versioned_in (with_line 5 (codes "unit 0 sum 1")) ≡ Err (CertNumber 54) }
    ensures short { versioned_in (take 61 (with_line 5 (codes "unit 1 sum 1"))) ≡ Err CertShort }
{}

/// Rows: the same text, with a number past its range or not in its form.
pub fn numbers_that_differ()
    ensures no_node { versioned_in (with_line 2 (codes "nodes 0 leaves 4")) ≡ Err (CertNumber 15) }
    ensures many_nodes { versioned_in (with_line 2 (codes "nodes 1048577 leaves 4")) ≡ Err (CertNumber 15) }
    ensures leading_zero { versioned_in (with_line 2 (codes "nodes 7 leaves 04")) ≡ Err (CertNumber 24) }
    ensures plus { versioned_in (with_line 5 (codes "unit +1")) ≡ Err (CertNumber 54) }
    ensures large_mass { versioned_in (with_line 6 (codes "mass 4611686018427387905")) ≡ Err (CertNumber 61) }
    ensures every_zero { versioned_in (with_line 7 (codes "rounds 1 every 0 scale 1048576")) ≡ Err (CertNumber 78) }
    ensures other_round { versioned_in (with_line 8 (codes "trace 2 1 0 1 0")) ≡ Err (CertNumber 100) }
    ensures later_round { versioned_in (with_line 8 (codes "trace 1 2 0 1 0")) ≡ Err (CertNumber 102) }
    ensures minus_alone { versioned_in (with_line 8 (codes "trace 1 1 0 1 -")) ≡ Err (CertNumber 108) }
    ensures other_set { versioned_in (with_line 10 (codes "weights 2 524288 524288")) ≡ Err (CertNumber 133) }
    ensures negative_weight { versioned_in (with_line 10 (codes "weights 1 524288 -1")) ≡ Err (CertNumber 142) }
    ensures no_choice { versioned_in (with_line 12 (codes "value 1 0 0")) ≡ Err (CertNumber 169) }
    ensures common_factor { versioned_in (with_line 17 (codes "bracket 0 2/4")) ≡ Err (CertNumber 242) }
    ensures whole_over_one { versioned_in (with_line 17 (codes "bracket 0 2/1")) ≡ Err (CertNumber 242) }
    ensures negative_below { versioned_in (with_line 17 (codes "bracket 0 1/-2")) ≡ Err (CertNumber 242) }
    ensures two_slashes { versioned_in (with_line 17 (codes "bracket 0 1/2/3")) ≡ Err (CertNumber 242) }
{}

/// Rows: the same text, with other separators or an end at another place. A field may be empty; it stands where the
/// next byte does.
pub fn separators_that_differ()
    ensures empty_number { versioned_in (with_line 2 (codes "nodes  7 leaves 4")) ≡ Err (CertNumber 15) }
    ensures empty_word { versioned_in (with_line 2 (codes "nodes 7  leaves 4")) ≡ Err (CertSyntax 17) }
    ensures empty_line { versioned_in (with_line 4 []) ≡ Err (CertSyntax 35) }
    ensures empty_version { versioned_in (with_line 1 (codes "XGCERT ")) ≡ Err CertVersion }
    ensures space_at_the_end { versioned_in (with_line 4 (codes "sequences 3 3 ")) ≡ Err (CertSyntax 48) }
    ensures line_too_short { versioned_in (with_line 3 (codes "sets 1")) ≡ Err (CertSyntax 32) }
    ensures no_weight { versioned_in (with_line 10 (codes "weights 1")) ≡ Err (CertSyntax 134) }
    ensures empty_weight { versioned_in (with_line 10 (codes "weights 1 524288 ")) ≡ Err (CertNumber 142) }
    ensures no_byte { versioned_in [] ≡ Err CertShort }
    ensures short_of_version_two { versioned_in (codes "XGCERT 2") ≡ Err CertShort }
    ensures short_of_another_version { versioned_in (codes "XGCERT 3") ≡ Err CertShort }
    ensures short_of_another_word { versioned_in (codes "certificate") ≡ Err CertShort }
    ensures trailing { versioned_in (text_of_lines (pennies_lines ++ codes "end" ∷ [])) ≡ Err (CertTrailing 248) }
    ensures no_last_feed { versioned_in (take 247 (text_of_lines pennies_lines)) ≡ Err CertShort }
{}

/// Rows: numbers up to the line feed, of which one or two may come: a number behind the last one is met at its
/// separator.
pub fn full_rows()
    ensures one { (row_of_numbers most_root 1).read 2 (codes "7" ++ 10 ∷ []) ≡ Ok (7 ∷ [], []) }
    ensures two { (row_of_numbers most_root 1).read 4 (codes "7 8" ++ 10 ∷ []) ≡ Ok (7 ∷ 8 ∷ [], []) }
    ensures three { (row_of_numbers most_root 1).read 6 (codes "7 8 9" ++ 10 ∷ []) ≡ Err (CertSyntax 3) }
    ensures largest { (row_of_numbers most_root 0).read 12 (codes "68719476736" ++ 10 ∷ [])
        ≡ Ok (68719476736 ∷ [], []) }
    ensures too_large { (row_of_numbers most_root 0).read 12 (codes "68719476737" ++ 10 ∷ []) ≡ Err (CertNumber 0) }
{}
