//! The first rounds of example games.

ghost use Rattle.std.specs.Prelude.{◌≡◌, [], ◌∷◌, pos, negsuc};
ghost use Rattle.def_tree.specs.declared.Player.TheVariants.{One, Two};
ghost use Rattle.def_round.specs.Rounds.{next_round};
ghost use Rattle.def_plan.specs.Kuhn.{kuhn};
ghost use Rattle.def_plan.specs.Pennies.{pennies};
ghost use Rattle.def_plan.specs.SmallForms.{one_mover};
ghost use Rattle.def_plus.specs.Cut.{cut};
ghost use Rattle.def_plus.specs.Multiple.{added_times};
ghost use Rattle.def_plus.specs.Weights.{total_weight};
ghost use Rattle.def_plus.specs.PlusRounds.{plan_after, plus_rounds};
ghost use Rattle.def_plus.specs.TwoDeals.{two_deals};

/// Row: regrets below 0 are cut, and the others stay.
pub fn worked_cut()
    ensures { cut (pos 0 ∷ pos 5 ∷ negsuc 0 ∷ pos 0 ∷ pos 3 ∷ negsuc 1237940039285380274899124223
        ∷ pos 1237940039285380274899124224 ∷ [])
        ≡ pos 0 ∷ pos 5 ∷ pos 0 ∷ pos 0 ∷ pos 3 ∷ pos 0 ∷ pos 1237940039285380274899124224 ∷ [] }
{}

/// Rows: a plan that is added five times, and one that is added once to nothing.
pub fn worked_additions()
    ensures five { added_times (6 ∷ 2 ∷ 4 ∷ []) (3 ∷ 1 ∷ 2 ∷ []) 5 ≡ 21 ∷ 7 ∷ 14 ∷ [] }
    ensures once { added_times (0 ∷ 0 ∷ 0 ∷ []) (3 ∷ 1 ∷ 2 ∷ []) 1 ≡ 3 ∷ 1 ∷ 2 ∷ [] }
{}

/// Rows: what the rounds up to 0, 1, 2, 6 and 2,048 weigh together.
pub fn worked_weights()
    ensures none { total_weight 0 ≡ 0 }
    ensures one { total_weight 1 ≡ 1 }
    ensures two { total_weight 2 ≡ 3 }
    ensures six { total_weight 6 ≡ 21 }
    ensures most { total_weight 2048 ≡ 2098176 }
{}

/// Rows: one mover, whose worse action is cut.
pub fn plus_rounds_of_one_mover()
    ensures one { plus_rounds one_mover 16 1
        ≡ record {
          regrets_one = pos 0 ∷ pos 8 ∷ pos 0 ∷ [];
          regrets_two = pos 0 ∷ [];
          sum_one = 16 ∷ 8 ∷ 8 ∷ [];
          sum_two = 16 ∷ [];
        } }
    ensures two { plus_rounds one_mover 16 2
        ≡ record {
          regrets_one = pos 0 ∷ pos 8 ∷ pos 0 ∷ [];
          regrets_two = pos 0 ∷ [];
          sum_one = 48 ∷ 40 ∷ 8 ∷ [];
          sum_two = 48 ∷ [];
        } }
    ensures three { plus_rounds one_mover 16 3
        ≡ record {
          regrets_one = pos 0 ∷ pos 8 ∷ pos 0 ∷ [];
          regrets_two = pos 0 ∷ [];
          sum_one = 96 ∷ 88 ∷ 8 ∷ [];
          sum_two = 96 ∷ [];
        } }
    ensures four { plus_rounds one_mover 16 4
        ≡ record {
          regrets_one = pos 0 ∷ pos 8 ∷ pos 0 ∷ [];
          regrets_two = pos 0 ∷ [];
          sum_one = 160 ∷ 152 ∷ 8 ∷ [];
          sum_two = 160 ∷ [];
        } }
    ensures six { plus_rounds one_mover 16 6
        ≡ record {
          regrets_one = pos 0 ∷ pos 8 ∷ pos 0 ∷ [];
          regrets_two = pos 0 ∷ [];
          sum_one = 336 ∷ 328 ∷ 8 ∷ [];
          sum_two = 336 ∷ [];
        } }
{}

/// Rows: matching pennies with plans of root 1, where the regret of an action is cut and grows again.
pub fn plus_rounds_of_pennies()
    ensures one { plus_rounds pennies 1 1
        ≡ record {
          regrets_one = pos 0 ∷ pos 0 ∷ pos 1 ∷ [];
          regrets_two = pos 0 ∷ pos 1 ∷ pos 0 ∷ [];
          sum_one = 1 ∷ 0 ∷ 1 ∷ [];
          sum_two = 1 ∷ 0 ∷ 1 ∷ [];
        } }
    ensures two { plus_rounds pennies 1 2
        ≡ record {
          regrets_one = pos 0 ∷ pos 2 ∷ pos 1 ∷ [];
          regrets_two = pos 0 ∷ pos 1 ∷ pos 0 ∷ [];
          sum_one = 3 ∷ 0 ∷ 3 ∷ [];
          sum_two = 3 ∷ 2 ∷ 1 ∷ [];
        } }
    ensures three { plus_rounds pennies 1 3
        ≡ record {
          regrets_one = pos 0 ∷ pos 3 ∷ pos 0 ∷ [];
          regrets_two = pos 0 ∷ pos 1 ∷ pos 0 ∷ [];
          sum_one = 6 ∷ 0 ∷ 6 ∷ [];
          sum_two = 6 ∷ 5 ∷ 1 ∷ [];
        } }
    ensures four { plus_rounds pennies 1 4
        ≡ record {
          regrets_one = pos 0 ∷ pos 3 ∷ pos 0 ∷ [];
          regrets_two = pos 0 ∷ pos 1 ∷ pos 2 ∷ [];
          sum_one = 10 ∷ 4 ∷ 6 ∷ [];
          sum_two = 10 ∷ 9 ∷ 1 ∷ [];
        } }
    ensures six { plus_rounds pennies 1 6
        ≡ record {
          regrets_one = pos 0 ∷ pos 3 ∷ pos 4 ∷ [];
          regrets_two = pos 0 ∷ pos 2 ∷ pos 3 ∷ [];
          sum_one = 21 ∷ 9 ∷ 12 ∷ [];
          sum_two = 21 ∷ 9 ∷ 12 ∷ [];
        } }
{}

/// Rows: matching pennies with plans of root 7.
pub fn plus_rounds_of_pennies_in_sevenths()
    ensures one { plus_rounds pennies 7 1
        ≡ record {
          regrets_one = pos 0 ∷ pos 0 ∷ pos 1 ∷ [];
          regrets_two = pos 0 ∷ pos 1 ∷ pos 0 ∷ [];
          sum_one = 7 ∷ 3 ∷ 4 ∷ [];
          sum_two = 7 ∷ 3 ∷ 4 ∷ [];
        } }
    ensures two { plus_rounds pennies 7 2
        ≡ record {
          regrets_one = pos 0 ∷ pos 14 ∷ pos 1 ∷ [];
          regrets_two = pos 0 ∷ pos 1 ∷ pos 0 ∷ [];
          sum_one = 21 ∷ 3 ∷ 18 ∷ [];
          sum_two = 21 ∷ 17 ∷ 4 ∷ [];
        } }
    ensures three { plus_rounds pennies 7 3
        ≡ record {
          regrets_one = pos 0 ∷ pos 15 ∷ pos 0 ∷ [];
          regrets_two = pos 0 ∷ pos 1 ∷ pos 10 ∷ [];
          sum_one = 42 ∷ 21 ∷ 21 ∷ [];
          sum_two = 42 ∷ 38 ∷ 4 ∷ [];
        } }
    ensures four { plus_rounds pennies 7 4
        ≡ record {
          regrets_one = pos 0 ∷ pos 15 ∷ pos 14 ∷ [];
          regrets_two = pos 0 ∷ pos 0 ∷ pos 12 ∷ [];
          sum_one = 70 ∷ 49 ∷ 21 ∷ [];
          sum_two = 70 ∷ 38 ∷ 32 ∷ [];
        } }
    ensures six { plus_rounds pennies 7 6
        ≡ record {
          regrets_one = pos 0 ∷ pos 0 ∷ pos 27 ∷ [];
          regrets_two = pos 0 ∷ pos 8 ∷ pos 12 ∷ [];
          sum_one = 147 ∷ 76 ∷ 71 ∷ [];
          sum_two = 147 ∷ 38 ∷ 109 ∷ [];
        } }
{}

/// Rows: a game with chance and sets one below the other, with plans of root 10.
pub fn plus_rounds_of_two_deals()
    ensures one { plus_rounds two_deals 10 1
        ≡ record {
          regrets_one = pos 0 ∷ pos 0 ∷ pos 4 ∷ pos 0 ∷ pos 0 ∷ pos 3 ∷ pos 0 ∷ pos 0 ∷ pos 24 ∷ [];
          regrets_two = pos 0 ∷ pos 13 ∷ pos 0 ∷ pos 0 ∷ [];
          sum_one = 10 ∷ 5 ∷ 5 ∷ 2 ∷ 3 ∷ 5 ∷ 5 ∷ 2 ∷ 3 ∷ [];
          sum_two = 10 ∷ 3 ∷ 3 ∷ 4 ∷ [];
        } }
    ensures two { plus_rounds two_deals 10 2
        ≡ record {
          regrets_one = pos 0 ∷ pos 20 ∷ pos 4 ∷ pos 0 ∷ pos 0 ∷ pos 3 ∷ pos 0 ∷ pos 0 ∷ pos 24 ∷ [];
          regrets_two = pos 0 ∷ pos 13 ∷ pos 0 ∷ pos 0 ∷ [];
          sum_one = 30 ∷ 5 ∷ 25 ∷ 2 ∷ 3 ∷ 25 ∷ 5 ∷ 2 ∷ 3 ∷ [];
          sum_two = 30 ∷ 23 ∷ 3 ∷ 4 ∷ [];
        } }
    ensures three { plus_rounds two_deals 10 3
        ≡ record {
          regrets_one = pos 0 ∷ pos 24 ∷ pos 0 ∷ pos 0 ∷ pos 0 ∷ pos 3 ∷ pos 0 ∷ pos 0 ∷ pos 24 ∷ [];
          regrets_two = pos 0 ∷ pos 13 ∷ pos 20 ∷ pos 0 ∷ [];
          sum_one = 60 ∷ 29 ∷ 31 ∷ 14 ∷ 15 ∷ 55 ∷ 5 ∷ 2 ∷ 3 ∷ [];
          sum_two = 60 ∷ 53 ∷ 3 ∷ 4 ∷ [];
        } }
    ensures four { plus_rounds two_deals 10 4
        ≡ record {
          regrets_one = pos 0 ∷ pos 24 ∷ pos 15 ∷ pos 0 ∷ pos 0 ∷ pos 3 ∷ pos 50 ∷ pos 0 ∷ pos 24 ∷ [];
          regrets_two = pos 0 ∷ pos 0 ∷ pos 32 ∷ pos 0 ∷ [];
          sum_one = 100 ∷ 69 ∷ 31 ∷ 34 ∷ 35 ∷ 95 ∷ 5 ∷ 2 ∷ 3 ∷ [];
          sum_two = 100 ∷ 65 ∷ 31 ∷ 4 ∷ [];
        } }
    ensures six { plus_rounds two_deals 10 6
        ≡ record {
          regrets_one = pos 0 ∷ pos 16 ∷ pos 34 ∷ pos 0 ∷ pos 0 ∷ pos 2 ∷ pos 55 ∷ pos 0 ∷ pos 24 ∷ [];
          regrets_two = pos 0 ∷ pos 124 ∷ pos 0 ∷ pos 48 ∷ [];
          sum_one = 210 ∷ 111 ∷ 99 ∷ 55 ∷ 56 ∷ 95 ∷ 115 ∷ 2 ∷ 113 ∷ [];
          sum_two = 210 ∷ 95 ∷ 87 ∷ 28 ∷ [];
        } }
{}

/// Rows: the plans of rounds 1 to 4 and 6 of this game, which are made before the regrets change.
pub fn plans_of_two_deals()
    ensures one_of_one { plan_after two_deals One 10 0 ≡ 10 ∷ 5 ∷ 5 ∷ 2 ∷ 3 ∷ 5 ∷ 5 ∷ 2 ∷ 3 ∷ [] }
    ensures one_of_two { plan_after two_deals Two 10 0 ≡ 10 ∷ 3 ∷ 3 ∷ 4 ∷ [] }
    ensures two_of_one { plan_after two_deals One 10 1 ≡ 10 ∷ 0 ∷ 10 ∷ 0 ∷ 0 ∷ 10 ∷ 0 ∷ 0 ∷ 0 ∷ [] }
    ensures two_of_two { plan_after two_deals Two 10 1 ≡ 10 ∷ 10 ∷ 0 ∷ 0 ∷ [] }
    ensures three_of_one { plan_after two_deals One 10 2 ≡ 10 ∷ 8 ∷ 2 ∷ 4 ∷ 4 ∷ 10 ∷ 0 ∷ 0 ∷ 0 ∷ [] }
    ensures three_of_two { plan_after two_deals Two 10 2 ≡ 10 ∷ 10 ∷ 0 ∷ 0 ∷ [] }
    ensures four_of_one { plan_after two_deals One 10 3 ≡ 10 ∷ 10 ∷ 0 ∷ 5 ∷ 5 ∷ 10 ∷ 0 ∷ 0 ∷ 0 ∷ [] }
    ensures four_of_two { plan_after two_deals Two 10 3 ≡ 10 ∷ 3 ∷ 7 ∷ 0 ∷ [] }
    ensures six_of_one { plan_after two_deals One 10 5 ≡ 10 ∷ 2 ∷ 8 ∷ 1 ∷ 1 ∷ 0 ∷ 10 ∷ 0 ∷ 10 ∷ [] }
    ensures six_of_two { plan_after two_deals Two 10 5 ≡ 10 ∷ 5 ∷ 1 ∷ 4 ∷ [] }
{}

/// Rows: what these rounds make of its regrets before they are cut.
pub fn changes_of_two_deals()
    ensures one_of_one { (next_round two_deals 10 (plus_rounds two_deals 10 0)).regrets_one
        ≡ pos 0 ∷ negsuc 2 ∷ pos 4 ∷ pos 0 ∷ pos 0 ∷ pos 3 ∷ negsuc 2 ∷ negsuc 23 ∷ pos 24 ∷ [] }
    ensures one_of_two { (next_round two_deals 10 (plus_rounds two_deals 10 0)).regrets_two
        ≡ pos 0 ∷ pos 13 ∷ pos 0 ∷ negsuc 11 ∷ [] }
    ensures two_of_one { (next_round two_deals 10 (plus_rounds two_deals 10 1)).regrets_one
        ≡ pos 0 ∷ pos 20 ∷ pos 4 ∷ pos 0 ∷ pos 0 ∷ pos 3 ∷ negsuc 19 ∷ pos 0 ∷ pos 24 ∷ [] }
    ensures two_of_two { (next_round two_deals 10 (plus_rounds two_deals 10 1)).regrets_two
        ≡ pos 0 ∷ pos 13 ∷ negsuc 19 ∷ negsuc 29 ∷ [] }
    ensures three_of_one { (next_round two_deals 10 (plus_rounds two_deals 10 2)).regrets_one
        ≡ pos 0 ∷ pos 24 ∷ negsuc 11 ∷ pos 0 ∷ pos 0 ∷ pos 3 ∷ negsuc 19 ∷ pos 0 ∷ pos 24 ∷ [] }
    ensures three_of_two { (next_round two_deals 10 (plus_rounds two_deals 10 2)).regrets_two
        ≡ pos 0 ∷ pos 13 ∷ pos 20 ∷ negsuc 5 ∷ [] }
    ensures four_of_one { (next_round two_deals 10 (plus_rounds two_deals 10 3)).regrets_one
        ≡ pos 0 ∷ pos 24 ∷ pos 15 ∷ pos 0 ∷ pos 0 ∷ pos 3 ∷ pos 50 ∷ negsuc 111 ∷ pos 24 ∷ [] }
    ensures four_of_two { (next_round two_deals 10 (plus_rounds two_deals 10 3)).regrets_two
        ≡ pos 0 ∷ negsuc 4 ∷ pos 32 ∷ negsuc 17 ∷ [] }
    ensures six_of_one { (next_round two_deals 10 (plus_rounds two_deals 10 5)).regrets_one
        ≡ pos 0 ∷ pos 16 ∷ pos 34 ∷ pos 0 ∷ pos 0 ∷ pos 2 ∷ pos 55 ∷ negsuc 15 ∷ pos 24 ∷ [] }
    ensures six_of_two { (next_round two_deals 10 (plus_rounds two_deals 10 5)).regrets_two
        ≡ pos 0 ∷ pos 124 ∷ negsuc 43 ∷ pos 48 ∷ [] }
{}

/// Rows: Kuhn poker with plans of root 100.
pub fn plus_rounds_of_kuhn_poker()
    ensures one { plus_rounds kuhn 100 1
        ≡ record {
          regrets_one = pos 0 ∷ pos 0 ∷ pos 75 ∷ pos 50 ∷ pos 0 ∷ pos 0 ∷ pos 75 ∷ pos 0 ∷ pos 50 ∷ pos 0 ∷ pos 75
              ∷ pos 0 ∷ pos 150 ∷ [];
          regrets_two = pos 0 ∷ pos 0 ∷ pos 25 ∷ pos 0 ∷ pos 50 ∷ pos 0 ∷ pos 25 ∷ pos 0 ∷ pos 150 ∷ pos 0 ∷ pos 25
              ∷ pos 50 ∷ pos 0 ∷ [];
          sum_one = 100 ∷ 50 ∷ 50 ∷ 25 ∷ 25 ∷ 50 ∷ 50 ∷ 25 ∷ 25 ∷ 50 ∷ 50 ∷ 25 ∷ 25 ∷ [];
          sum_two = 100 ∷ 50 ∷ 50 ∷ 50 ∷ 50 ∷ 50 ∷ 50 ∷ 50 ∷ 50 ∷ 50 ∷ 50 ∷ 50 ∷ 50 ∷ [];
        } }
    ensures two { plus_rounds kuhn 100 2
        ≡ record {
          regrets_one = pos 0 ∷ pos 200 ∷ pos 75 ∷ pos 50 ∷ pos 0 ∷ pos 100 ∷ pos 75 ∷ pos 0 ∷ pos 50 ∷ pos 100 ∷ pos 75
              ∷ pos 0 ∷ pos 150 ∷ [];
          regrets_two = pos 0 ∷ pos 0 ∷ pos 25 ∷ pos 0 ∷ pos 50 ∷ pos 0 ∷ pos 25 ∷ pos 0 ∷ pos 150 ∷ pos 0 ∷ pos 25
              ∷ pos 50 ∷ pos 0 ∷ [];
          sum_one = 300 ∷ 50 ∷ 250 ∷ 25 ∷ 25 ∷ 50 ∷ 250 ∷ 25 ∷ 25 ∷ 50 ∷ 250 ∷ 25 ∷ 25 ∷ [];
          sum_two = 300 ∷ 50 ∷ 250 ∷ 50 ∷ 250 ∷ 50 ∷ 250 ∷ 50 ∷ 250 ∷ 50 ∷ 250 ∷ 250 ∷ 50 ∷ [];
        } }
    ensures three { plus_rounds kuhn 100 3
        ≡ record {
          regrets_one = pos 0 ∷ pos 255 ∷ pos 0 ∷ pos 50 ∷ pos 0 ∷ pos 143 ∷ pos 18 ∷ pos 0 ∷ pos 50 ∷ pos 143 ∷ pos 18
              ∷ pos 0 ∷ pos 150 ∷ [];
          regrets_two = pos 0 ∷ pos 57 ∷ pos 25 ∷ pos 0 ∷ pos 50 ∷ pos 0 ∷ pos 25 ∷ pos 0 ∷ pos 150 ∷ pos 114 ∷ pos 25
              ∷ pos 50 ∷ pos 0 ∷ [];
          sum_one = 600 ∷ 266 ∷ 334 ∷ 241 ∷ 25 ∷ 221 ∷ 379 ∷ 25 ∷ 196 ∷ 221 ∷ 379 ∷ 25 ∷ 196 ∷ [];
          sum_two = 600 ∷ 50 ∷ 550 ∷ 50 ∷ 550 ∷ 50 ∷ 550 ∷ 50 ∷ 550 ∷ 50 ∷ 550 ∷ 550 ∷ 50 ∷ [];
        } }
    ensures four { plus_rounds kuhn 100 4
        ≡ record {
          regrets_one = pos 0 ∷ pos 255 ∷ pos 0 ∷ pos 50 ∷ pos 0 ∷ pos 146 ∷ pos 3 ∷ pos 46 ∷ pos 50 ∷ pos 138 ∷ pos 64
              ∷ pos 0 ∷ pos 150 ∷ [];
          regrets_two = pos 0 ∷ pos 84 ∷ pos 0 ∷ pos 12 ∷ pos 50 ∷ pos 0 ∷ pos 25 ∷ pos 0 ∷ pos 150 ∷ pos 146 ∷ pos 0
              ∷ pos 50 ∷ pos 0 ∷ [];
          sum_one = 1000 ∷ 666 ∷ 334 ∷ 641 ∷ 25 ∷ 573 ∷ 427 ∷ 25 ∷ 548 ∷ 573 ∷ 427 ∷ 25 ∷ 548 ∷ [];
          sum_two = 1000 ∷ 326 ∷ 674 ∷ 50 ∷ 950 ∷ 50 ∷ 950 ∷ 50 ∷ 950 ∷ 378 ∷ 622 ∷ 950 ∷ 50 ∷ [];
        } }
    ensures six { plus_rounds kuhn 100 6
        ≡ record {
          regrets_one = pos 0 ∷ pos 255 ∷ pos 0 ∷ pos 50 ∷ pos 0 ∷ pos 147 ∷ pos 0 ∷ pos 102 ∷ pos 0 ∷ pos 86 ∷ pos 147
              ∷ pos 0 ∷ pos 150 ∷ [];
          regrets_two = pos 0 ∷ pos 84 ∷ pos 0 ∷ pos 66 ∷ pos 20 ∷ pos 0 ∷ pos 25 ∷ pos 0 ∷ pos 150 ∷ pos 146 ∷ pos 143
              ∷ pos 50 ∷ pos 0 ∷ [];
          sum_one = 2100 ∷ 1766 ∷ 334 ∷ 1741 ∷ 25 ∷ 1658 ∷ 442 ∷ 837 ∷ 821 ∷ 1201 ∷ 899 ∷ 25 ∷ 1176 ∷ [];
          sum_two = 2100 ∷ 1426 ∷ 674 ∷ 421 ∷ 1679 ∷ 50 ∷ 2050 ∷ 50 ∷ 2050 ∷ 1478 ∷ 622 ∷ 2050 ∷ 50 ∷ [];
        } }
{}

/// Row: the most rounds of one mover at the greatest scale.
pub fn most_plus_rounds_of_one_mover()
    ensures { (plus_rounds one_mover 16384 2048).sum_one ≡ 34376515584 ∷ 34376507392 ∷ 8192 ∷ [] }
{}
