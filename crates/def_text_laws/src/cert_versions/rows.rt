//! Verdicts on certificates of both versions for small games, and their upgrades.

ghost use Rattle.std.specs.Prelude.{◌≡◌, [], ◌∷◌, pos, Ok, Err};
ghost use Rattle.def_fraction.specs.Fraction.{negative_of, over};
ghost use Rattle.def_tree.specs.declared.Player.TheVariants.{One, Two};
ghost use Rattle.def_cert_verdict.specs.declared.fault.TestFault.TheVariants.{HeadDiffers, NotAPlan, ReplyNotTight};
ghost use Rattle.def_cert_verdict.specs.declared.fault.TestFault.TheVariants.{SecondDiffers, TotalDiffers, TraceWidens};
ghost use Rattle.def_cert_verdict.specs.declared.fault.TestFault.TheVariants.{ValueTooGood};
ghost use Rattle.def_cert_verdict.specs.declared.fault.Which.TheVariants.{Lower, Upper};
ghost use Rattle.def_cert_verdict.specs.Changes.{high_end, line, plan_one, plan_two, reply_one, reply_two, traced};
ghost use Rattle.def_cert_verdict.specs.Changes.{value_one, value_two, weights_one};
ghost use Rattle.def_cert_verdict.specs.Pennies.{pennies_game};
ghost use Rattle.def_cert_verdict.specs.Verdict.{bracket, head_only};
ghost use Rattle.def_cert_text.specs.Laws.{versioned_head};
ghost use Rattle.def_cert_text.specs.Versions.{in_version_one};
ghost use Rattle.def_cert_text.specs.declared.version.TextVersion.TheVariants as versions;
ghost use Rattle.def_cert_text.specs.VersionTexts.{finest, finest_certificate, no_round_head, scale_one_certificate};
ghost use Rattle.def_cert_text.specs.VersionTexts.{scale_one_two, shared, shared_certificate, shared_head};
ghost use Rattle.def_cert_versions.specs.Rows.{finest_game, leaf_game, pennies_in_one, pennies_in_two, shared_game};
ghost use Rattle.def_cert_versions.specs.Rows.{shared_in_two, verdict_beside_other_second, verdict_in_one};
ghost use Rattle.def_cert_versions.specs.Rows.{verdict_in_two, verdict_on_second};
ghost use Rattle.def_cert_versions.specs.Verdict.{upgraded, versioned_verdict};

/// Rows: certificates that are accepted in both versions.
#[tactic(auto, unfolding(def_fraction::specs::Divisors::gcd, def_fraction::specs::Fraction::fraction_of))]
pub fn accepted_in_both()
    ensures shared_one { versioned_verdict shared_game (in_version_one shared_certificate)
        ≡ Ok (bracket (over (pos 0) 1) (over (pos 1) 6)) }
    ensures shared_two { versioned_verdict shared_game shared ≡ Ok (bracket (over (pos 0) 1) (over (pos 1) 6)) }
    ensures pennies_one { versioned_verdict pennies_game (in_version_one scale_one_certificate)
        ≡ Ok (bracket (over (negative_of 1) 1) (over (pos 0) 1)) }
    ensures pennies_two { versioned_verdict pennies_game scale_one_two
        ≡ Ok (bracket (over (negative_of 1) 1) (over (pos 0) 1)) }
    ensures finest_one { versioned_verdict finest_game (in_version_one finest_certificate)
        ≡ Ok (bracket (over (pos 21845) 302231454903657293676544) (over (pos 1) 4611686018427387904)) }
    ensures finest_two { versioned_verdict finest_game finest
        ≡ Ok (bracket (over (pos 21845) 302231454903657293676544) (over (pos 1) 4611686018427387904)) }
    ensures no_round_one { versioned_verdict leaf_game (versioned_head versions.One no_round_head) ≡ Ok head_only }
    ensures no_round_two { versioned_verdict leaf_game (versioned_head versions.Two no_round_head) ≡ Ok head_only }
    ensures other_choice { versioned_verdict pennies_game (pennies_in_one (value_one 1 (pos 0) 2 ∷ []))
        ≡ Ok (bracket (over (negative_of 1) 1) (over (pos 0) 1)) }
    ensures wide_first_line { versioned_verdict pennies_game
        (pennies_in_one (line 1 (traced 1 1 (negative_of 77) 1 (pos 99)) ∷ []))
        ≡ Ok (bracket (over (negative_of 1) 1) (over (pos 0) 1)) }
{}

/// Rows: upgrades: the same head, trace, plans, replies and bracket in version 2, with the second bracket where there
/// is a bracket.
#[tactic(auto, unfolding(def_fraction::specs::Divisors::gcd, def_fraction::specs::Fraction::fraction_of))]
pub fn upgrades()
    ensures shared_one { upgraded (in_version_one shared_certificate) ≡ shared }
    ensures shared_two { upgraded shared ≡ shared }
    ensures pennies_one { upgraded (in_version_one scale_one_certificate) ≡ scale_one_two }
    ensures finest_one { upgraded (in_version_one finest_certificate) ≡ finest }
    ensures no_round { upgraded (versioned_head versions.One no_round_head)
        ≡ versioned_head versions.Two no_round_head }
    ensures other_choice { upgraded (pennies_in_one (value_one 1 (pos 0) 2 ∷ []))
        ≡ pennies_in_two (value_one 1 (pos 0) 2 ∷ []) (over (pos 0) 1) (over (pos 1) 1) }
    ensures wide_first_line { upgraded (pennies_in_one (line 1 (traced 1 1 (negative_of 77) 1 (pos 99)) ∷ []))
        ≡ pennies_in_two (line 1 (traced 1 1 (negative_of 77) 1 (pos 99)) ∷ []) (over (pos 0) 1) (over (pos 1) 1) }
{}

/// Rows: other second brackets: the sum is -5/6, and the bracket is from 0 to 1/6.
#[tactic(auto, unfolding(def_fraction::specs::Divisors::gcd, def_fraction::specs::Fraction::fraction_of))]
pub fn seconds_that_differ()
    ensures exchanged { verdict_on_second (over (negative_of 5) 6) (over (negative_of 1) 1) ≡ Err SecondDiffers }
    ensures added { verdict_on_second (over (negative_of 2) 3) (over (negative_of 5) 6) ≡ Err SecondDiffers }
    ensures added_exchanged { verdict_on_second (over (negative_of 5) 6) (over (negative_of 2) 3)
        ≡ Err SecondDiffers }
    ensures turned { verdict_on_second (over (pos 1) 1) (over (pos 5) 6) ≡ Err SecondDiffers }
    ensures without_the_sum { verdict_on_second (over (negative_of 1) 6) (over (pos 0) 1) ≡ Err SecondDiffers }
    ensures without_the_sum_exchanged { verdict_on_second (over (pos 0) 1) (over (negative_of 1) 6)
        ≡ Err SecondDiffers }
    ensures the_first_again { verdict_on_second (over (pos 0) 1) (over (pos 1) 6) ≡ Err SecondDiffers }
    ensures half_the_sum { verdict_on_second (over (negative_of 7) 12) (over (negative_of 5) 12)
        ≡ Err SecondDiffers }
    ensures other_low { verdict_on_second (over (pos 0) 1) (over (negative_of 5) 6) ≡ Err SecondDiffers }
    ensures other_high { verdict_on_second (over (negative_of 1) 1) (over (negative_of 2) 3) ≡ Err SecondDiffers }
    ensures wider { verdict_on_second (over (negative_of 2) 1) (over (pos 1) 6) ≡ Err SecondDiffers }
    ensures not_lowest { verdict_on_second (over (negative_of 6) 6) (over (negative_of 5) 6) ≡ Err SecondDiffers }
    ensures zero_sum_exchanged { versioned_verdict pennies_game (pennies_in_two [] (over (pos 1) 1) (over (pos 0) 1))
        ≡ Err SecondDiffers }
    ensures zero_sum_turned { versioned_verdict pennies_game
        (pennies_in_two [] (over (negative_of 1) 1) (over (pos 0) 1))
        ≡ Err SecondDiffers }
{}

/// Rows: heads, by the lines of both versions: version 1 compares the sum with the unit, version 2 behind the mass.
#[tactic(auto, unfolding(def_fraction::specs::Divisors::gcd, def_fraction::specs::Fraction::fraction_of))]
pub fn heads_by_their_lines()
    ensures nodes_one { verdict_in_one (record shared_head { nodes = 99 }) [] ≡ Err (HeadDiffers 2) }
    ensures nodes_two { verdict_in_two (record shared_head { nodes = 99 }) [] ≡ Err (HeadDiffers 2) }
    ensures leaves_two { verdict_in_two (record shared_head { leaves = 9 }) [] ≡ Err (HeadDiffers 2) }
    ensures sets_two { verdict_in_two (record shared_head { sets_two = 3 }) [] ≡ Err (HeadDiffers 3) }
    ensures sequences_two { verdict_in_two (record shared_head { sequences_two = 9 }) []
        ≡ Err (HeadDiffers 4) }
    ensures unit_one { verdict_in_one (record shared_head { unit = 12 }) [] ≡ Err (HeadDiffers 5) }
    ensures unit_two { verdict_in_two (record shared_head { unit = 12 }) [] ≡ Err (HeadDiffers 5) }
    ensures mass_one { verdict_in_one (record shared_head { mass = 1 }) [] ≡ Err (HeadDiffers 6) }
    ensures mass_two { verdict_in_two (record shared_head { mass = 1 }) [] ≡ Err (HeadDiffers 6) }
    ensures unit_and_mass_two { verdict_in_two (record shared_head { unit = 12; mass = 1 }) []
        ≡ Err (HeadDiffers 5) }
    ensures sum_one { verdict_in_one (record shared_head { sum = over (pos 5) 6 }) []
        ≡ Err (HeadDiffers 5) }
    ensures sum_two { verdict_in_two (record shared_head { sum = over (pos 5) 6 }) []
        ≡ Err (HeadDiffers 7) }
    ensures sum_with_its_second { versioned_verdict shared_game
        (shared_in_two (record shared_head { sum = over (pos 5) 6 }) [] (over (pos 2) 3) (over (pos 5) 6))
        ≡ Err (HeadDiffers 7) }
    ensures sum_and_mass_one { verdict_in_one (record shared_head { sum = over (pos 5) 6; mass = 1 }) []
        ≡ Err (HeadDiffers 5) }
    ensures sum_and_mass_two { verdict_in_two (record shared_head { sum = over (pos 5) 6; mass = 1 }) []
        ≡ Err (HeadDiffers 6) }
    ensures sum_and_unit_two { verdict_in_two (record shared_head { sum = over (pos 5) 6; unit = 12 }) []
        ≡ Err (HeadDiffers 5) }
    ensures no_round_one { versioned_verdict leaf_game
        (versioned_head versions.One (record no_round_head { sum = over (pos 1) 3 }))
        ≡ Err (HeadDiffers 5) }
    ensures no_round_two { versioned_verdict leaf_game
        (versioned_head versions.Two (record no_round_head { sum = over (pos 1) 3 }))
        ≡ Err (HeadDiffers 7) }
{}

/// Rows: the second bracket is judged last of all: beside another one, each other fault comes first.
#[tactic(auto, unfolding(def_fraction::specs::Divisors::gcd, def_fraction::specs::Fraction::fraction_of))]
pub fn second_is_last()
    ensures alone { verdict_beside_other_second shared_head [] ≡ Err SecondDiffers }
    ensures nodes { verdict_beside_other_second (record shared_head { nodes = 99 }) []
        ≡ Err (HeadDiffers 2) }
    ensures sum { verdict_beside_other_second (record shared_head { sum = over (pos 5) 6 }) []
        ≡ Err (HeadDiffers 7) }
    ensures root_one { verdict_beside_other_second shared_head (plan_one 19 ∷ []) ≡ Err (NotAPlan One 0) }
    ensures root_two { verdict_beside_other_second shared_head (plan_two 7 ∷ []) ≡ Err (NotAPlan Two 0) }
    ensures set_of_one { verdict_beside_other_second shared_head (weights_one 1 (16 ∷ 3 ∷ []) ∷ [])
        ≡ Err (NotAPlan One 1) }
    ensures value_of_two { verdict_beside_other_second shared_head (value_two 1 (pos 1) 2 ∷ [])
        ≡ Err (ValueTooGood Two 1 2) }
    ensures choice_of_two { verdict_beside_other_second shared_head (value_two 1 (pos 0) 9 ∷ [])
        ≡ Err (ReplyNotTight Two 1) }
    ensures total_of_two { verdict_beside_other_second shared_head (reply_two (pos 1) ∷ [])
        ≡ Err (TotalDiffers Lower) }
    ensures value_of_one { verdict_beside_other_second shared_head (value_one 1 (pos 5) 1 ∷ [])
        ≡ Err (ValueTooGood One 1 1) }
    ensures choice_of_one { verdict_beside_other_second shared_head (value_one 1 (pos 6) 9 ∷ [])
        ≡ Err (ReplyNotTight One 1) }
    ensures total_of_one { verdict_beside_other_second shared_head (reply_one (pos 7) ∷ [])
        ≡ Err (TotalDiffers Upper) }
    ensures high { verdict_beside_other_second shared_head (high_end (pos 7) 6 ∷ [])
        ≡ Err (TotalDiffers Upper) }
    ensures trace { verdict_beside_other_second shared_head (line 1 (traced 1 1 (pos 99999) 1 (pos 6)) ∷ [])
        ≡ Err (TraceWidens 10) }
    ensures high_with_its_second { versioned_verdict shared_game
        (shared_in_two shared_head (high_end (pos 7) 6 ∷ []) (over (negative_of 2) 1) (over (negative_of 5) 6))
        ≡ Err (TotalDiffers Upper) }
{}
