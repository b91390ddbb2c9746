//! Matching pennies and Kuhn poker.

ghost use Rattle.std.specs.Prelude.{◌≡◌, [], ◌∷◌, Ok, Err, pos};
ghost use Rattle.def_tree.specs.declared.Player.TheVariants.{One, Two};
ghost use Rattle.def_cert_verdict.specs.declared.fault.TestFault.TheVariants.{HeadDiffers, NotAPlan, ValueTooGood};
ghost use Rattle.def_cert_verdict.specs.declared.fault.TestFault.TheVariants.{ReplyNotTight, TotalDiffers};
ghost use Rattle.def_cert_verdict.specs.declared.fault.TestFault.TheVariants.{TraceWidens};
ghost use Rattle.def_cert_verdict.specs.declared.fault.Which.TheVariants.{Lower, Upper};
ghost use Rattle.def_cert_verdict.specs.Laws.{with_bounds, without_bounds};
ghost use Rattle.def_cert_verdict.specs.Verdict.{bracket, head_only, verdict};
ghost use Rattle.def_fraction.specs.Fraction.{over, negative_of};
ghost use Rattle.def_cert_verdict.specs.Changes.{high_end, line, plan_one, reply_two, traced};
ghost use Rattle.def_cert_verdict.specs.Changes.{value_two, weights_one};
ghost use Rattle.def_cert_verdict.specs.Kuhn.{kuhn_verdict};
ghost use Rattle.def_cert_verdict.specs.OneMover.{one_mover_verdict};
ghost use Rattle.def_cert_verdict.specs.Pennies.{scale_one_bounds, scale_one_head, head_verdict, pennies_game};
ghost use Rattle.def_cert_verdict.specs.Pennies.{pennies_bounds, pennies_head, pennies_verdict};

/// Rows: matching pennies, one line below the head changed: values, choices, totals, weights and a root.
#[tactic(auto, unfolding(def_fraction::specs::Divisors::gcd, def_fraction::specs::Fraction::fraction_of))]
pub fn pennies_lines()
    ensures unchanged { pennies_verdict [] ≡ Ok (bracket (over (pos 0) 1) (over (pos 0) 1)) }
    ensures better_value { pennies_verdict (value_two 1 (pos 1) 1 ∷ []) ≡ Err (ValueTooGood Two 1 1) }
    ensures worse_value { pennies_verdict (value_two 1 (negative_of 1) 1 ∷ []) ≡ Err (ReplyNotTight Two 1) }
    ensures other_choice { pennies_verdict (value_two 1 (pos 0) 2 ∷ [])
        ≡ Ok (bracket (over (pos 0) 1) (over (pos 0) 1)) }
    ensures no_action { pennies_verdict (value_two 1 (pos 0) 3 ∷ []) ≡ Err (ReplyNotTight Two 1) }
    ensures action_0 { pennies_verdict (value_two 1 (pos 0) 0 ∷ []) ≡ Err (ReplyNotTight Two 1) }
    ensures total { pennies_verdict (reply_two (pos 1) ∷ []) ≡ Err (TotalDiffers Lower) }
    ensures other_high { pennies_verdict (high_end (pos 1) 1 ∷ []) ≡ Err (TotalDiffers Upper) }
    ensures weights { pennies_verdict (weights_one 1 (524288 ∷ 524289 ∷ []) ∷ []) ≡ Err (NotAPlan One 1) }
    ensures root { pennies_verdict (plan_one 1048577 ∷ []) ≡ Err (NotAPlan One 0) }
{}

/// Rows: matching pennies, one line of the head changed or several, of which the first decides; and with no bounds.
pub fn pennies_heads()
    ensures nodes { head_verdict (record pennies_head { nodes = 8 }) ≡ Err (HeadDiffers 2) }
    ensures leaves { head_verdict (record pennies_head { leaves = 5 }) ≡ Err (HeadDiffers 2) }
    ensures sets_one { head_verdict (record pennies_head { sets_one = 2 }) ≡ Err (HeadDiffers 3) }
    ensures sets_two { head_verdict (record pennies_head { sets_two = 0 }) ≡ Err (HeadDiffers 3) }
    ensures sequences_one { head_verdict (record pennies_head { sequences_one = 2 }) ≡ Err (HeadDiffers 4) }
    ensures sequences_two { head_verdict (record pennies_head { sequences_two = 4 }) ≡ Err (HeadDiffers 4) }
    ensures unit { head_verdict (record pennies_head { unit = 2 }) ≡ Err (HeadDiffers 5) }
    ensures sum { head_verdict (record pennies_head { sum = over (pos 1) 1 }) ≡ Err (HeadDiffers 5) }
    ensures sum_above { verdict (record pennies_game { sum = over (pos 1) 3 })
        (with_bounds (record pennies_head { sum = over (negative_of 1) 3 }) pennies_bounds) ≡ Err (HeadDiffers 5) }
    ensures sum_below { verdict (record pennies_game { sum = over (pos 1) 3 })
        (with_bounds (record pennies_head { sum = over (pos 1) 2 }) pennies_bounds) ≡ Err (HeadDiffers 5) }
    ensures no_sum { verdict (record pennies_game { sum = over (pos 1) 3 }) (with_bounds pennies_head pennies_bounds)
        ≡ Err (HeadDiffers 5) }
    ensures sum_of_it { verdict (record pennies_game { sum = over (pos 1) 3 })
        (without_bounds (record pennies_head { rounds = 0; sum = over (pos 1) 3 })) ≡ Ok head_only }
    ensures mass { head_verdict (record pennies_head { mass = 6 }) ≡ Err (HeadDiffers 6) }
    ensures scale { head_verdict (record pennies_head { scale = 1048575 }) ≡ Err (NotAPlan One 0) }
    ensures first_line { head_verdict
        (record pennies_head { leaves = 3; sets_one = 3; sequences_two = 1; unit = 2; mass = 5 })
        ≡ Err (HeadDiffers 2) }
    ensures second_line { head_verdict (record pennies_head { sets_two = 3; sequences_one = 1; unit = 2; mass = 5 })
        ≡ Err (HeadDiffers 3) }
    ensures third_line { head_verdict (record pennies_head { sequences_one = 1; unit = 2; mass = 5 })
        ≡ Err (HeadDiffers 4) }
    ensures fourth_line { head_verdict (record pennies_head { sum = over (pos 1) 2; mass = 5 }) ≡ Err (HeadDiffers 5) }
    ensures no_round { verdict pennies_game (without_bounds (record pennies_head { rounds = 0 })) ≡ Ok head_only }
    ensures no_round_of_it { verdict pennies_game (without_bounds (record pennies_head { rounds = 0; mass = 6 }))
        ≡ Err (HeadDiffers 6) }
{}

/// Rows: Kuhn poker, whose unit is 6: accepted from -5/12 to 1/2, and refused for a value, a choice and weights.
#[tactic(auto, unfolding(def_fraction::specs::Divisors::gcd, def_fraction::specs::Fraction::fraction_of))]
pub fn kuhn_verdicts()
    ensures unchanged { kuhn_verdict [] ≡ Ok (bracket (over (negative_of 5) 12) (over (pos 1) 2)) }
    ensures too_good { kuhn_verdict (value_two 1 (negative_of 524287) 2 ∷ []) ≡ Err (ValueTooGood Two 1 2) }
    ensures not_reached { kuhn_verdict (value_two 1 (negative_of 524289) 2 ∷ []) ≡ Err (ReplyNotTight Two 1) }
    ensures not_dealt { kuhn_verdict (weights_one 1 (524288 ∷ 524289 ∷ []) ∷ []) ≡ Err (NotAPlan One 1) }
{}

/// Rows: two rounds of matching pennies with scale 1, and of a game in which player two has no set.
#[tactic(auto, unfolding(def_fraction::specs::Divisors::gcd, def_fraction::specs::Fraction::fraction_of))]
pub fn verdicts_on_two_rounds()
    ensures ends_of_two_rounds { verdict pennies_game (with_bounds scale_one_head scale_one_bounds)
        ≡ Ok (bracket (over (negative_of 1) 1) (over (pos 0) 1)) }
    ensures no_set_of_two { one_mover_verdict [] ≡ Ok (bracket (over (pos 3) 4) (over (pos 1) 1)) }
    ensures widened { one_mover_verdict (line 1 (traced 1 1 (pos 1048576) 1 (pos 1048576)) ∷ [])
        ≡ Err (TraceWidens 9) }
{}
