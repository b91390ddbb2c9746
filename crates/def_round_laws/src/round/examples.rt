//! The first rounds of example games.

ghost use Rattle.std.specs.Prelude.{◌≡◌, [], ◌∷◌, pos, negsuc};
ghost use Rattle.def_tree.specs.declared.Player.TheVariants.{One, Two};
ghost use Rattle.def_round.specs.Play.{play_of, plan_of_play};
ghost use Rattle.def_round.specs.Rounds.{opening, next_round, rounds};
ghost use Rattle.def_plan.specs.Hidden.{hidden};
ghost use Rattle.def_round.specs.HiddenRounds.{after_one, after_two, after_three, after_four};
ghost use Rattle.def_round.specs.Round.{own_sum, round_values};
ghost use Rattle.def_plan.specs.Kuhn.{kuhn, even_one, even_two};

/// Rows: round 1: no regret yet, so each action is played evenly.
pub fn round_one()
    ensures play_of_one { play_of hidden.sets_one (opening hidden).regrets_one
        ≡ 0 ∷ 21845 ∷ 21845 ∷ 21846 ∷ 32768 ∷ 32768 ∷ 32768 ∷ 32768 ∷ [] }
    ensures play_of_two { play_of hidden.sets_two (opening hidden).regrets_two
        ≡ 0 ∷ 21845 ∷ 21845 ∷ 21846 ∷ 32768 ∷ 32768 ∷ 32768 ∷ 32768 ∷ [] }
    ensures plan_of_one { plan_of_play hidden.sets_one (0 ∷ 21845 ∷ 21845 ∷ 21846 ∷ 32768 ∷ 32768 ∷ 32768 ∷
        32768 ∷ []) 10
        ≡ 10 ∷ 3 ∷ 3 ∷ 4 ∷ 1 ∷ 2 ∷ 1 ∷ 2 ∷ [] }
    ensures plan_of_two { plan_of_play hidden.sets_two (0 ∷ 21845 ∷ 21845 ∷ 21846 ∷ 32768 ∷ 32768 ∷ 32768 ∷
        32768 ∷ []) 10
        ≡ 10 ∷ 3 ∷ 3 ∷ 4 ∷ 1 ∷ 2 ∷ 1 ∷ 2 ∷ [] }
    ensures leaves { next_round hidden 10 (opening hidden) ≡ after_one }
{}

/// Rows: round 2: two unequal positive regrets at the first set of player one.
pub fn round_two()
    ensures play_of_one { play_of hidden.sets_one after_one.regrets_one
        ≡ 0 ∷ 50641 ∷ 14895 ∷ 0 ∷ 0 ∷ 65536 ∷ 0 ∷ 65536 ∷ [] }
    ensures play_of_two { play_of hidden.sets_two after_one.regrets_two
        ≡ 0 ∷ 0 ∷ 0 ∷ 65536 ∷ 0 ∷ 65536 ∷ 65536 ∷ 0 ∷ [] }
    ensures plan_of_one { plan_of_play hidden.sets_one (0 ∷ 50641 ∷ 14895 ∷ 0 ∷ 0 ∷ 65536 ∷ 0 ∷ 65536 ∷ []) 10
        ≡ 10 ∷ 7 ∷ 3 ∷ 0 ∷ 0 ∷ 7 ∷ 0 ∷ 3 ∷ [] }
    ensures plan_of_two { plan_of_play hidden.sets_two (0 ∷ 0 ∷ 0 ∷ 65536 ∷ 0 ∷ 65536 ∷ 65536 ∷ 0 ∷ []) 10
        ≡ 10 ∷ 0 ∷ 0 ∷ 10 ∷ 0 ∷ 0 ∷ 0 ∷ 0 ∷ [] }
    ensures leaves { next_round hidden 10 after_one ≡ after_two }
{}

/// Rows: round 3: two unequal positive regrets, of others than before.
pub fn round_three()
    ensures play_of_one { play_of hidden.sets_one after_two.regrets_one
        ≡ 0 ∷ 16693 ∷ 0 ∷ 48843 ∷ 0 ∷ 65536 ∷ 0 ∷ 65536 ∷ [] }
    ensures play_of_two { play_of hidden.sets_two after_two.regrets_two
        ≡ 0 ∷ 0 ∷ 0 ∷ 65536 ∷ 0 ∷ 65536 ∷ 65536 ∷ 0 ∷ [] }
    ensures plan_of_one { plan_of_play hidden.sets_one (0 ∷ 16693 ∷ 0 ∷ 48843 ∷ 0 ∷ 65536 ∷ 0 ∷ 65536 ∷ []) 10
        ≡ 10 ∷ 2 ∷ 0 ∷ 8 ∷ 0 ∷ 2 ∷ 0 ∷ 0 ∷ [] }
    ensures plan_of_two { plan_of_play hidden.sets_two (0 ∷ 0 ∷ 0 ∷ 65536 ∷ 0 ∷ 65536 ∷ 65536 ∷ 0 ∷ []) 10
        ≡ 10 ∷ 0 ∷ 0 ∷ 10 ∷ 0 ∷ 0 ∷ 0 ∷ 0 ∷ [] }
    ensures leaves { next_round hidden 10 after_two ≡ after_three }
{}

/// Rows: round 4: two unequal positive regrets at the first set of player two.
pub fn round_four()
    ensures play_of_one { play_of hidden.sets_one after_three.regrets_one
        ≡ 0 ∷ 0 ∷ 0 ∷ 65536 ∷ 0 ∷ 65536 ∷ 0 ∷ 65536 ∷ [] }
    ensures play_of_two { play_of hidden.sets_two after_three.regrets_two
        ≡ 0 ∷ 27726 ∷ 0 ∷ 37810 ∷ 0 ∷ 65536 ∷ 65536 ∷ 0 ∷ [] }
    ensures plan_of_one { plan_of_play hidden.sets_one (0 ∷ 0 ∷ 0 ∷ 65536 ∷ 0 ∷ 65536 ∷ 0 ∷ 65536 ∷ []) 10
        ≡ 10 ∷ 0 ∷ 0 ∷ 10 ∷ 0 ∷ 0 ∷ 0 ∷ 0 ∷ [] }
    ensures plan_of_two { plan_of_play hidden.sets_two (0 ∷ 27726 ∷ 0 ∷ 37810 ∷ 0 ∷ 65536 ∷ 65536 ∷ 0 ∷ []) 10
        ≡ 10 ∷ 4 ∷ 0 ∷ 6 ∷ 0 ∷ 4 ∷ 0 ∷ 0 ∷ [] }
    ensures leaves { next_round hidden 10 after_three ≡ after_four }
{}

/// Row: four rounds from the opening leave what round 4 leaves.
pub fn four_rounds()
    ensures { rounds hidden 10 4 ≡ after_four }
{}

/// Rows: without regrets each action of Kuhn poker is played by half.
pub fn first_plays()
    ensures play_of_one { play_of kuhn.sets_one (opening kuhn).regrets_one
        ≡ 0 ∷ 32768 ∷ 32768 ∷ 32768 ∷ 32768 ∷ 32768 ∷ 32768 ∷ 32768 ∷ 32768 ∷ 32768 ∷ 32768 ∷ 32768 ∷ 32768 ∷ [] }
    ensures play_of_two { play_of kuhn.sets_two (opening kuhn).regrets_two
        ≡ 0 ∷ 32768 ∷ 32768 ∷ 32768 ∷ 32768 ∷ 32768 ∷ 32768 ∷ 32768 ∷ 32768 ∷ 32768 ∷ 32768 ∷ 32768 ∷ 32768 ∷ [] }
{}

/// Rows: the plans of the first round, which are all of the sums after it, are the even ones.
pub fn first_plans()
    ensures sum_one { (rounds kuhn 1048576 1).sum_one ≡ even_one }
    ensures sum_two { (rounds kuhn 1048576 1).sum_two ≡ even_two }
{}

/// Rows: what each set of both players is worth in the first round.
pub fn first_values()
    ensures values_of_one { let play = play_of kuhn.sets_one (opening kuhn).regrets_one in
        round_values (own_sum One kuhn.leaves even_two) play kuhn.sets_one
        ≡ negsuc 1835007 ∷ negsuc 1572863 ∷ pos 262144 ∷ negsuc 524287 ∷ pos 2359296 ∷ pos 524288 ∷ [] }
    ensures values_of_two { let play = play_of kuhn.sets_two (opening kuhn).regrets_two in
        round_values (own_sum Two kuhn.leaves even_one) play kuhn.sets_two
        ≡ pos 262144 ∷ negsuc 524287 ∷ pos 1310720 ∷ pos 524288 ∷ negsuc 786431 ∷ negsuc 1572863 ∷ [] }
{}

/// Rows: both players' regrets after the first round.
pub fn first_regrets()
    ensures regrets_of_one { (rounds kuhn 1048576 1).regrets_one
        ≡ pos 0 ∷ negsuc 786431 ∷ pos 786432 ∷ pos 524288 ∷ negsuc 524287 ∷ negsuc 786431 ∷ pos 786432
        ∷ negsuc 524287 ∷ pos 524288 ∷ negsuc 786431 ∷ pos 786432 ∷ negsuc 1572863 ∷ pos 1572864 ∷ [] }
    ensures regrets_of_two { (rounds kuhn 1048576 1).regrets_two
        ≡ pos 0 ∷ negsuc 262143 ∷ pos 262144 ∷ negsuc 524287 ∷ pos 524288 ∷ negsuc 262143 ∷ pos 262144
        ∷ negsuc 1572863 ∷ pos 1572864 ∷ negsuc 262143 ∷ pos 262144 ∷ pos 524288 ∷ negsuc 524287 ∷ [] }
{}
