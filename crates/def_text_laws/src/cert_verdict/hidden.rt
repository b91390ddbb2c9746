//! A small game with sets one below the other, one field changed.

ghost use Rattle.std.specs.Prelude.{◌≡◌, [], ◌∷◌, Ok, Err, pos};
ghost use Rattle.def_tree.specs.declared.Player.TheVariants.{One, Two};
ghost use Rattle.def_cert_verdict.specs.declared.fault.TestFault.TheVariants.{NotAPlan, ValueTooGood, ReplyNotTight};
ghost use Rattle.def_cert_verdict.specs.declared.fault.TestFault.TheVariants.{TotalDiffers, TraceWidens};
ghost use Rattle.def_cert_verdict.specs.declared.fault.Which.TheVariants.{Lower, Upper};
ghost use Rattle.def_cert_verdict.specs.Verdict.{bracket};
ghost use Rattle.def_fraction.specs.Fraction.{over, negative_of};
ghost use Rattle.def_cert_verdict.specs.Changes.{high_end, line, low_end, plan_two, reply_one};
ghost use Rattle.def_cert_verdict.specs.Changes.{reply_two, traced, value_one, value_two, weights_one, weights_two};
ghost use Rattle.def_cert_verdict.specs.Hidden.{hidden_verdict};

/// Rows: plans: the root, then the first set of another size, then the first that doesn't add up.
#[tactic(auto, unfolding(def_fraction::specs::Divisors::gcd, def_fraction::specs::Fraction::fraction_of))]
pub fn hidden_plans()
    ensures unchanged { hidden_verdict [] ≡ Ok (bracket (over (negative_of 11) 15) (over (pos 2) 15)) }
    ensures root_two { hidden_verdict (plan_two 30 ∷ []) ≡ Err (NotAPlan Two 0) }
    ensures more_weights { hidden_verdict (weights_one 2 (1 ∷ 11 ∷ 0 ∷ []) ∷ []) ≡ Err (NotAPlan One 2) }
    ensures fewer_weights { hidden_verdict (weights_two 3 (3 ∷ []) ∷ []) ≡ Err (NotAPlan Two 3) }
    ensures first_size { hidden_verdict (weights_two 2 (3 ∷ []) ∷ weights_two 3 (1 ∷ 2 ∷ 0 ∷ []) ∷ [])
        ≡ Err (NotAPlan Two 2) }
    ensures equal_count { hidden_verdict (weights_one 1 (12 ∷ 6 ∷ []) ∷ weights_one 2 (12 ∷ 1 ∷ 11 ∷ []) ∷ [])
        ≡ Err (NotAPlan One 1) }
    ensures first_sum { hidden_verdict (weights_one 2 (2 ∷ 11 ∷ []) ∷ weights_one 3 (2 ∷ 5 ∷ []) ∷ [])
        ≡ Err (NotAPlan One 2) }
    ensures sum_of_two { hidden_verdict (weights_two 3 (2 ∷ 2 ∷ []) ∷ []) ≡ Err (NotAPlan Two 3) }
{}

/// Rows: replies: values, then the choice, for both players.
#[tactic(auto, unfolding(def_fraction::specs::Divisors::gcd, def_fraction::specs::Fraction::fraction_of))]
pub fn hidden_replies()
    ensures low_value_of_one { hidden_verdict (value_one 1 (pos 7) 3 ∷ []) ≡ Err (ValueTooGood One 1 3) }
    ensures high_value_of_one { hidden_verdict (value_one 2 (negative_of 5) 2 ∷ []) ≡ Err (ReplyNotTight One 2) }
    ensures other_choice_of_one { hidden_verdict (value_one 2 (negative_of 6) 1 ∷ []) ≡ Err (ReplyNotTight One 2) }
    ensures no_choice_of_one { hidden_verdict (value_one 3 (negative_of 2) 0 ∷ []) ≡ Err (ReplyNotTight One 3) }
    ensures far_choice_of_one { hidden_verdict (value_one 3 (negative_of 2) 3 ∷ []) ≡ Err (ReplyNotTight One 3) }
    ensures high_value_of_two { hidden_verdict (value_two 3 (negative_of 29) 1 ∷ []) ≡ Err (ValueTooGood Two 3 1) }
    ensures value_read_above { hidden_verdict (value_two 2 (negative_of 35) 2 ∷ []) ≡ Err (ReplyNotTight Two 1) }
    ensures low_value_of_two { hidden_verdict (value_two 1 (negative_of 67) 1 ∷ []) ≡ Err (ReplyNotTight Two 1) }
    ensures low_later_value { hidden_verdict (value_two 3 (negative_of 31) 1 ∷ []) ≡ Err (ReplyNotTight Two 3) }
    ensures other_choice_of_two { hidden_verdict (value_two 1 (negative_of 66) 2 ∷ []) ≡ Err (ReplyNotTight Two 1) }
    ensures far_choice_of_two { hidden_verdict (value_two 1 (negative_of 66) 4 ∷ []) ≡ Err (ReplyNotTight Two 1) }
{}

/// Rows: totals: the worth of the empty sequence, the last traced end, and the printed bound in lowest terms.
#[tactic(auto, unfolding(def_fraction::specs::Divisors::gcd, def_fraction::specs::Fraction::fraction_of))]
pub fn hidden_totals()
    ensures total_two { hidden_verdict (reply_two (negative_of 65) ∷ []) ≡ Err (TotalDiffers Lower) }
    ensures traced_two { hidden_verdict (line 4 (traced 4 3 (negative_of 65) 2 (pos 8)) ∷ [])
        ≡ Err (TotalDiffers Lower) }
    ensures only_worth_two { hidden_verdict (reply_two (negative_of 65) ∷ low_end (negative_of 13) 18
        ∷ line 4 (traced 4 3 (negative_of 65) 2 (pos 8)) ∷ [])
        ≡ Err (TotalDiffers Lower) }
    ensures other_low { hidden_verdict (low_end (negative_of 10) 15 ∷ []) ≡ Err (TotalDiffers Lower) }
    ensures low_not_lowest { hidden_verdict (low_end (negative_of 22) 30 ∷ []) ≡ Err (TotalDiffers Lower) }
    ensures low_of_nothing { hidden_verdict (low_end (pos 0) 0 ∷ []) ≡ Err (TotalDiffers Lower) }
    ensures low_turned { hidden_verdict (low_end (pos 11) 15 ∷ []) ≡ Err (TotalDiffers Lower) }
    ensures total_one { hidden_verdict (reply_one (pos 9) ∷ []) ≡ Err (TotalDiffers Upper) }
    ensures traced_one { hidden_verdict (line 4 (traced 4 3 (negative_of 66) 2 (pos 7)) ∷ [])
        ≡ Err (TotalDiffers Upper) }
    ensures only_worth_one { hidden_verdict (reply_one (pos 6) ∷ high_end (pos 1) 10
        ∷ line 4 (traced 4 3 (negative_of 66) 2 (pos 6)) ∷ [])
        ≡ Err (TotalDiffers Upper) }
    ensures other_high { hidden_verdict (high_end (pos 2) 5 ∷ []) ≡ Err (TotalDiffers Upper) }
    ensures high_not_lowest { hidden_verdict (high_end (pos 8) 60 ∷ []) ≡ Err (TotalDiffers Upper) }
{}

/// Rows: the trace: each line beside the one before it, at both ends, by its line in the text.
#[tactic(auto, unfolding(def_fraction::specs::Divisors::gcd, def_fraction::specs::Fraction::fraction_of))]
pub fn hidden_traces()
    ensures lower_end { hidden_verdict (line 1 (traced 1 1 (negative_of 25) 1 (pos 7)) ∷ []) ≡ Err (TraceWidens 9) }
    ensures upper_end { hidden_verdict (line 1 (traced 1 1 (negative_of 26) 1 (pos 3)) ∷ []) ≡ Err (TraceWidens 9) }
    ensures beside_the_line_before { hidden_verdict (line 2 (traced 2 1 (negative_of 10) 2 (pos 8)) ∷ [])
        ≡ Err (TraceWidens 10) }
    ensures last_line { hidden_verdict (line 3 (traced 3 3 (negative_of 66) 2 (pos 7)) ∷ []) ≡ Err (TraceWidens 11) }
    ensures by_rounds { hidden_verdict (line 1 (traced 1 1 (negative_of 22) 1 (pos 7))
        ∷ line 2 (traced 2 1 (negative_of 22) 2 (pos 8)) ∷ [])
        ≡ Ok (bracket (over (negative_of 11) 15) (over (pos 2) 15)) }
    ensures wide_at_first { hidden_verdict (line 1 (traced 1 1 (negative_of 1000) 1 (pos 1000)) ∷ [])
        ≡ Ok (bracket (over (negative_of 11) 15) (over (pos 2) 15)) }
{}
