//! The same game with two fields changed, or more: the order of the tests.

ghost use Rattle.std.specs.Prelude.{◌≡◌, [], ◌∷◌, Err, pos};
ghost use Rattle.def_tree.specs.declared.Player.TheVariants.{One, Two};
ghost use Rattle.def_cert_verdict.specs.declared.fault.TestFault.TheVariants.{HeadDiffers, NotAPlan, ValueTooGood};
ghost use Rattle.def_cert_verdict.specs.declared.fault.TestFault.TheVariants.{ReplyNotTight, TotalDiffers};
ghost use Rattle.def_cert_verdict.specs.declared.fault.TestFault.TheVariants.{TraceWidens};
ghost use Rattle.def_cert_verdict.specs.declared.fault.Which.TheVariants.{Lower, Upper};
ghost use Rattle.def_cert_verdict.specs.Laws.{with_bounds};
ghost use Rattle.def_cert_verdict.specs.Verdict.{verdict};
ghost use Rattle.def_fraction.specs.Fraction.{negative_of};
ghost use Rattle.def_cert_verdict.specs.Changes.{changed, high_end, line, low_end, plan_one, plan_two};
ghost use Rattle.def_cert_verdict.specs.Changes.{reply_one, reply_two, traced, value_one, value_two, weights_one};
ghost use Rattle.def_cert_verdict.specs.Changes.{weights_two};
ghost use Rattle.def_cert_verdict.specs.Hidden.{hidden_bounds, hidden_game, hidden_head, hidden_verdict};

/// Rows: the head, then player one's plan, then player two's: of each the root, the sizes, the sums.
pub fn order_of_the_plans()
    ensures head_and_root_one { verdict hidden_game
        (with_bounds (record hidden_head { mass = 93 }) (changed hidden_bounds (plan_one 31 ∷ [])))
        ≡ Err (HeadDiffers 6) }
    ensures root_one_and_sum_one { hidden_verdict (plan_one 31 ∷ weights_one 2 (2 ∷ 11 ∷ []) ∷ [])
        ≡ Err (NotAPlan One 0) }
    ensures root_one_and_size_one { hidden_verdict (plan_one 31 ∷ weights_one 2 (12 ∷ []) ∷ [])
        ≡ Err (NotAPlan One 0) }
    ensures sum_one_and_root_two { hidden_verdict (weights_one 2 (2 ∷ 11 ∷ []) ∷ plan_two 21 ∷ [])
        ≡ Err (NotAPlan One 2) }
    ensures size_one_and_root_two { hidden_verdict (weights_one 2 (12 ∷ []) ∷ plan_two 21 ∷ [])
        ≡ Err (NotAPlan One 2) }
    ensures sum_one_and_size_two { hidden_verdict (weights_one 3 (2 ∷ 5 ∷ []) ∷ weights_two 2 (3 ∷ []) ∷ [])
        ≡ Err (NotAPlan One 3) }
    ensures sum_one_and_size_one { hidden_verdict (weights_one 1 (13 ∷ 6 ∷ 12 ∷ [])
        ∷ weights_one 3 (1 ∷ 5 ∷ 0 ∷ []) ∷ [])
        ≡ Err (NotAPlan One 3) }
    ensures sum_two_and_size_two { hidden_verdict (weights_two 1 (4 ∷ 3 ∷ 14 ∷ [])
        ∷ weights_two 3 (1 ∷ 2 ∷ 0 ∷ []) ∷ [])
        ≡ Err (NotAPlan Two 3) }
    ensures root_two_and_sum_two { hidden_verdict (plan_two 21 ∷ weights_two 2 (2 ∷ 2 ∷ []) ∷ [])
        ≡ Err (NotAPlan Two 0) }
    ensures sum_two_and_value_two { hidden_verdict (value_two 1 (negative_of 65) 1 ∷ weights_two 2 (2 ∷ 2 ∷ []) ∷ [])
        ≡ Err (NotAPlan Two 2) }
    ensures trace_and_root_one { hidden_verdict (line 4 (traced 4 3 (negative_of 65) 2 (pos 8)) ∷ plan_one 31 ∷ [])
        ≡ Err (NotAPlan One 0) }
{}

/// Rows: player two's sets, at each the values and then the choice, then the lower end; the same for player one.
#[tactic(auto, unfolding(def_fraction::specs::Divisors::gcd, def_fraction::specs::Fraction::fraction_of))]
pub fn order_of_the_replies()
    ensures value_two_and_choice_two { hidden_verdict (value_two 1 (negative_of 65) 9 ∷ [])
        ≡ Err (ValueTooGood Two 1 1) }
    ensures choice_two_and_later_value_two { hidden_verdict (value_two 1 (negative_of 66) 9
        ∷ value_two 2 (negative_of 35) 2 ∷ [])
        ≡ Err (ReplyNotTight Two 1) }
    ensures choice_two_and_value_one { hidden_verdict (value_two 3 (negative_of 30) 9 ∷ value_one 1 (pos 7) 3 ∷ [])
        ≡ Err (ReplyNotTight Two 3) }
    ensures choice_two_and_total_two { hidden_verdict (value_two 3 (negative_of 30) 9 ∷ reply_two (negative_of 65) ∷ [])
        ≡ Err (ReplyNotTight Two 3) }
    ensures total_two_and_value_one { hidden_verdict (reply_two (negative_of 65) ∷ value_one 1 (pos 7) 3 ∷ [])
        ≡ Err (TotalDiffers Lower) }
    ensures low_and_value_one { hidden_verdict (value_one 1 (pos 7) 3 ∷ low_end (negative_of 77) 1 ∷ [])
        ≡ Err (TotalDiffers Lower) }
    ensures value_one_and_choice_one { hidden_verdict (value_one 2 (negative_of 7) 9 ∷ [])
        ≡ Err (ValueTooGood One 2 2) }
    ensures choice_one_and_later_value_one { hidden_verdict (value_one 1 (pos 8) 9
        ∷ value_one 3 (negative_of 3) 2 ∷ [])
        ≡ Err (ReplyNotTight One 1) }
    ensures choice_one_and_total_one { hidden_verdict (reply_one (pos 9) ∷ value_one 3 (negative_of 2) 9 ∷ [])
        ≡ Err (ReplyNotTight One 3) }
{}

/// Rows: the lower end comes before the upper one, both before the trace, whose lines come in their order.
#[tactic(auto, unfolding(def_fraction::specs::Divisors::gcd, def_fraction::specs::Fraction::fraction_of))]
pub fn order_of_the_rest()
    ensures total_two_and_total_one { hidden_verdict (reply_two (negative_of 65) ∷ reply_one (pos 9) ∷ [])
        ≡ Err (TotalDiffers Lower) }
    ensures high_and_trace { hidden_verdict (line 1 (traced 1 1 (pos 1000000) 1 (pos 7)) ∷ high_end (pos 77) 1 ∷ [])
        ≡ Err (TotalDiffers Upper) }
    ensures lower_and_later_upper { hidden_verdict (line 1 (traced 1 1 (pos 1000000) 1 (pos 7))
        ∷ line 2 (traced 2 1 (negative_of 26) 2 (negative_of 1000000)) ∷ [])
        ≡ Err (TraceWidens 9) }
    ensures upper_and_later_lower { hidden_verdict (line 1 (traced 1 1 (negative_of 26) 1 (pos 3))
        ∷ line 3 (traced 3 3 (negative_of 65) 2 (pos 8)) ∷ [])
        ≡ Err (TraceWidens 9) }
{}
