//! The traces, the ends and the brackets of example games.

ghost use Rattle.std.specs.Prelude.{◌≡◌, ◌*◌, [], ◌∷◌, Some, None, pos, negsuc};
ghost use Rattle.def_fraction.specs.Fraction.{fraction_of};
ghost use Rattle.def_plan.specs.Kuhn.{kuhn};
ghost use Rattle.def_plan.specs.Pennies.{pennies};
ghost use Rattle.def_plan.specs.SmallForms.{one_mover};
ghost use Rattle.def_reply.specs.Bracket.{trace};
ghost use Rattle.def_reply.specs.Offers.{board_after};
ghost use Rattle.def_reply.specs.Outcome.{Head};
ghost use Rattle.def_plus.specs.TwoDeals.{two_deals};
ghost use Rattle.def_plus.specs.Weights.{total_weight};
ghost use Rattle.def_run.specs.Run.{offers_in};
ghost use Rattle.def_plus_run.specs.PlusRun.{plus_evaluation, plus_evaluations, plus_outcome, plus_run};
ghost use Rattle.def_plus_run.specs.ThreeAlike.{three_alike};

/// Rows: what the sums after rounds 1 to 4 and 6 are worth, of one mover, in units of 16.
pub fn plus_evaluations_of_one_mover()
    ensures one { plus_evaluation one_mover 16 1
        ≡ record { round = 1; divisor = 1; low = pos 8; high = pos 16 } }
    ensures two { plus_evaluation one_mover 16 2
        ≡ record { round = 2; divisor = 3; low = pos 40; high = pos 48 } }
    ensures three { plus_evaluation one_mover 16 3
        ≡ record { round = 3; divisor = 6; low = pos 88; high = pos 96 } }
    ensures four { plus_evaluation one_mover 16 4
        ≡ record { round = 4; divisor = 10; low = pos 152; high = pos 160 } }
    ensures six { plus_evaluation one_mover 16 6
        ≡ record { round = 6; divisor = 21; low = pos 328; high = pos 336 } }
{}

/// Rows: the traces of six rounds of this game, evaluated each round, each second and each fourth.
pub fn plus_traces_of_one_mover()
    ensures each { trace (plus_evaluations one_mover 16 1 6)
        ≡ record { round = 1; low_round = 1; low = pos 8; high_round = 1; high = pos 16 }
        ∷ record { round = 2; low_round = 2; low = pos 40; high_round = 1; high = pos 16 }
        ∷ record { round = 3; low_round = 3; low = pos 88; high_round = 1; high = pos 16 }
        ∷ record { round = 4; low_round = 4; low = pos 152; high_round = 1; high = pos 16 }
        ∷ record { round = 5; low_round = 5; low = pos 232; high_round = 1; high = pos 16 }
        ∷ record { round = 6; low_round = 6; low = pos 328; high_round = 1; high = pos 16 } ∷ [] }
    ensures second { trace (plus_evaluations one_mover 16 2 6)
        ≡ record { round = 2; low_round = 2; low = pos 40; high_round = 2; high = pos 48 }
        ∷ record { round = 4; low_round = 4; low = pos 152; high_round = 2; high = pos 48 }
        ∷ record { round = 6; low_round = 6; low = pos 328; high_round = 2; high = pos 48 } ∷ [] }
    ensures fourth { trace (plus_evaluations one_mover 16 4 6)
        ≡ record { round = 4; low_round = 4; low = pos 152; high_round = 4; high = pos 160 }
        ∷ record { round = 6; low_round = 6; low = pos 328; high_round = 4; high = pos 160 } ∷ [] }
{}

/// Rows: the ends of its runs of six rounds, evaluated each round and each fourth.
pub fn plus_ends_of_one_mover()
    ensures each_lower { (board_after (offers_in one_mover (plus_run one_mover 16) 1 6)).lower
        ≡ Some (record {
          round = 6;
          divisor = 21;
          plan = 336 ∷ 328 ∷ 8 ∷ [];
          reply = record { total = pos 328; sets = [] };
        }) }
    ensures each_upper { (board_after (offers_in one_mover (plus_run one_mover 16) 1 6)).upper
        ≡ Some (record {
          round = 1;
          divisor = 1;
          plan = 16 ∷ [];
          reply = record { total = pos 16; sets = record { value = pos 16; choice = 1 } ∷ [] };
        }) }
    ensures fourth_lower { (board_after (offers_in one_mover (plus_run one_mover 16) 4 6)).lower
        ≡ Some (record {
          round = 6;
          divisor = 21;
          plan = 336 ∷ 328 ∷ 8 ∷ [];
          reply = record { total = pos 328; sets = [] };
        }) }
    ensures fourth_upper { (board_after (offers_in one_mover (plus_run one_mover 16) 4 6)).upper
        ≡ Some (record {
          round = 4;
          divisor = 10;
          plan = 160 ∷ [];
          reply = record { total = pos 160; sets = record { value = pos 160; choice = 1 } ∷ [] };
        }) }
{}

/// Rows: what the sums after rounds 1 to 4 and 6 are worth, of matching pennies, in units of 1.
pub fn plus_evaluations_of_pennies()
    ensures one { plus_evaluation pennies 1 1
        ≡ record { round = 1; divisor = 1; low = negsuc 0; high = pos 1 } }
    ensures two { plus_evaluation pennies 1 2
        ≡ record { round = 2; divisor = 3; low = negsuc 2; high = pos 1 } }
    ensures three { plus_evaluation pennies 1 3
        ≡ record { round = 3; divisor = 6; low = negsuc 5; high = pos 4 } }
    ensures four { plus_evaluation pennies 1 4
        ≡ record { round = 4; divisor = 10; low = negsuc 1; high = pos 8 } }
    ensures six { plus_evaluation pennies 1 6
        ≡ record { round = 6; divisor = 21; low = negsuc 2; high = pos 3 } }
{}

/// Rows: the traces of six rounds of this game, evaluated each round, each second and each fourth.
pub fn plus_traces_of_pennies()
    ensures each { trace (plus_evaluations pennies 1 1 6)
        ≡ record { round = 1; low_round = 1; low = negsuc 0; high_round = 1; high = pos 1 }
        ∷ record { round = 2; low_round = 1; low = negsuc 0; high_round = 2; high = pos 1 }
        ∷ record { round = 3; low_round = 1; low = negsuc 0; high_round = 2; high = pos 1 }
        ∷ record { round = 4; low_round = 4; low = negsuc 1; high_round = 2; high = pos 1 }
        ∷ record { round = 5; low_round = 4; low = negsuc 1; high_round = 5; high = pos 3 }
        ∷ record { round = 6; low_round = 6; low = negsuc 2; high_round = 6; high = pos 3 } ∷ [] }
    ensures second { trace (plus_evaluations pennies 1 2 6)
        ≡ record { round = 2; low_round = 2; low = negsuc 2; high_round = 2; high = pos 1 }
        ∷ record { round = 4; low_round = 4; low = negsuc 1; high_round = 2; high = pos 1 }
        ∷ record { round = 6; low_round = 6; low = negsuc 2; high_round = 6; high = pos 3 } ∷ [] }
    ensures fourth { trace (plus_evaluations pennies 1 4 6)
        ≡ record { round = 4; low_round = 4; low = negsuc 1; high_round = 4; high = pos 8 }
        ∷ record { round = 6; low_round = 6; low = negsuc 2; high_round = 6; high = pos 3 } ∷ [] }
{}

/// Rows: the ends of its runs of six rounds, evaluated each round and each fourth.
pub fn plus_ends_of_pennies()
    ensures each_lower { (board_after (offers_in pennies (plus_run pennies 1) 1 6)).lower
        ≡ Some (record {
          round = 6;
          divisor = 21;
          plan = 21 ∷ 9 ∷ 12 ∷ [];
          reply = record { total = negsuc 2; sets = record { value = negsuc 2; choice = 1 } ∷ [] };
        }) }
    ensures each_upper { (board_after (offers_in pennies (plus_run pennies 1) 1 6)).upper
        ≡ Some (record {
          round = 6;
          divisor = 21;
          plan = 21 ∷ 9 ∷ 12 ∷ [];
          reply = record { total = pos 3; sets = record { value = pos 3; choice = 2 } ∷ [] };
        }) }
    ensures fourth_lower { (board_after (offers_in pennies (plus_run pennies 1) 4 6)).lower
        ≡ Some (record {
          round = 6;
          divisor = 21;
          plan = 21 ∷ 9 ∷ 12 ∷ [];
          reply = record { total = negsuc 2; sets = record { value = negsuc 2; choice = 1 } ∷ [] };
        }) }
    ensures fourth_upper { (board_after (offers_in pennies (plus_run pennies 1) 4 6)).upper
        ≡ Some (record {
          round = 6;
          divisor = 21;
          plan = 21 ∷ 9 ∷ 12 ∷ [];
          reply = record { total = pos 3; sets = record { value = pos 3; choice = 2 } ∷ [] };
        }) }
{}

/// Rows: what the sums after rounds 1 to 4 and 6 are worth, of matching pennies, in units of 7.
pub fn plus_evaluations_of_pennies_in_sevenths()
    ensures one { plus_evaluation pennies 7 1
        ≡ record { round = 1; divisor = 1; low = negsuc 0; high = pos 1 } }
    ensures two { plus_evaluation pennies 7 2
        ≡ record { round = 2; divisor = 3; low = negsuc 14; high = pos 13 } }
    ensures three { plus_evaluation pennies 7 3
        ≡ record { round = 3; divisor = 6; low = pos 0; high = pos 34 } }
    ensures four { plus_evaluation pennies 7 4
        ≡ record { round = 4; divisor = 10; low = negsuc 27; high = pos 6 } }
    ensures six { plus_evaluation pennies 7 6
        ≡ record { round = 6; divisor = 21; low = negsuc 4; high = pos 71 } }
{}

/// Rows: the traces of six rounds of this game, evaluated each round, each second and each fourth.
pub fn plus_traces_of_pennies_in_sevenths()
    ensures each { trace (plus_evaluations pennies 7 1 6)
        ≡ record { round = 1; low_round = 1; low = negsuc 0; high_round = 1; high = pos 1 }
        ∷ record { round = 2; low_round = 1; low = negsuc 0; high_round = 1; high = pos 1 }
        ∷ record { round = 3; low_round = 3; low = pos 0; high_round = 1; high = pos 1 }
        ∷ record { round = 4; low_round = 3; low = pos 0; high_round = 4; high = pos 6 }
        ∷ record { round = 5; low_round = 3; low = pos 0; high_round = 4; high = pos 6 }
        ∷ record { round = 6; low_round = 3; low = pos 0; high_round = 4; high = pos 6 } ∷ [] }
    ensures second { trace (plus_evaluations pennies 7 2 6)
        ≡ record { round = 2; low_round = 2; low = negsuc 14; high_round = 2; high = pos 13 }
        ∷ record { round = 4; low_round = 4; low = negsuc 27; high_round = 4; high = pos 6 }
        ∷ record { round = 6; low_round = 6; low = negsuc 4; high_round = 4; high = pos 6 } ∷ [] }
    ensures fourth { trace (plus_evaluations pennies 7 4 6)
        ≡ record { round = 4; low_round = 4; low = negsuc 27; high_round = 4; high = pos 6 }
        ∷ record { round = 6; low_round = 6; low = negsuc 4; high_round = 4; high = pos 6 } ∷ [] }
{}

/// Rows: the ends of its runs of six rounds, evaluated each round and each fourth.
pub fn plus_ends_of_pennies_in_sevenths()
    ensures each_lower { (board_after (offers_in pennies (plus_run pennies 7) 1 6)).lower
        ≡ Some (record {
          round = 3;
          divisor = 6;
          plan = 42 ∷ 21 ∷ 21 ∷ [];
          reply = record { total = pos 0; sets = record { value = pos 0; choice = 1 } ∷ [] };
        }) }
    ensures each_upper { (board_after (offers_in pennies (plus_run pennies 7) 1 6)).upper
        ≡ Some (record {
          round = 4;
          divisor = 10;
          plan = 70 ∷ 38 ∷ 32 ∷ [];
          reply = record { total = pos 6; sets = record { value = pos 6; choice = 1 } ∷ [] };
        }) }
    ensures fourth_lower { (board_after (offers_in pennies (plus_run pennies 7) 4 6)).lower
        ≡ Some (record {
          round = 6;
          divisor = 21;
          plan = 147 ∷ 76 ∷ 71 ∷ [];
          reply = record { total = negsuc 4; sets = record { value = negsuc 4; choice = 2 } ∷ [] };
        }) }
    ensures fourth_upper { (board_after (offers_in pennies (plus_run pennies 7) 4 6)).upper
        ≡ Some (record {
          round = 4;
          divisor = 10;
          plan = 70 ∷ 38 ∷ 32 ∷ [];
          reply = record { total = pos 6; sets = record { value = pos 6; choice = 1 } ∷ [] };
        }) }
{}

/// Rows: what the sums after rounds 1 to 4 and 6 are worth, of a game in which nothing is better than anything else, so
/// that the earliest ends stay.
pub fn plus_evaluations_of_three_alike()
    ensures one { plus_evaluation three_alike 16384 1
        ≡ record { round = 1; divisor = 1; low = pos 0; high = pos 0 } }
    ensures two { plus_evaluation three_alike 16384 2
        ≡ record { round = 2; divisor = 3; low = pos 0; high = pos 0 } }
    ensures three { plus_evaluation three_alike 16384 3
        ≡ record { round = 3; divisor = 6; low = pos 0; high = pos 0 } }
    ensures four { plus_evaluation three_alike 16384 4
        ≡ record { round = 4; divisor = 10; low = pos 0; high = pos 0 } }
    ensures six { plus_evaluation three_alike 16384 6
        ≡ record { round = 6; divisor = 21; low = pos 0; high = pos 0 } }
{}

/// Rows: the traces of six rounds of this game, evaluated each round, each second and each fourth.
pub fn plus_traces_of_three_alike()
    ensures each { trace (plus_evaluations three_alike 16384 1 6)
        ≡ record { round = 1; low_round = 1; low = pos 0; high_round = 1; high = pos 0 }
        ∷ record { round = 2; low_round = 1; low = pos 0; high_round = 1; high = pos 0 }
        ∷ record { round = 3; low_round = 1; low = pos 0; high_round = 1; high = pos 0 }
        ∷ record { round = 4; low_round = 1; low = pos 0; high_round = 1; high = pos 0 }
        ∷ record { round = 5; low_round = 1; low = pos 0; high_round = 1; high = pos 0 }
        ∷ record { round = 6; low_round = 1; low = pos 0; high_round = 1; high = pos 0 } ∷ [] }
    ensures second { trace (plus_evaluations three_alike 16384 2 6)
        ≡ record { round = 2; low_round = 2; low = pos 0; high_round = 2; high = pos 0 }
        ∷ record { round = 4; low_round = 2; low = pos 0; high_round = 2; high = pos 0 }
        ∷ record { round = 6; low_round = 2; low = pos 0; high_round = 2; high = pos 0 } ∷ [] }
    ensures fourth { trace (plus_evaluations three_alike 16384 4 6)
        ≡ record { round = 4; low_round = 4; low = pos 0; high_round = 4; high = pos 0 }
        ∷ record { round = 6; low_round = 4; low = pos 0; high_round = 4; high = pos 0 } ∷ [] }
{}

/// Rows: the ends of its runs of six rounds, evaluated each round and each fourth.
pub fn plus_ends_of_three_alike()
    ensures each_lower { (board_after (offers_in three_alike (plus_run three_alike 16384) 1 6)).lower
        ≡ Some (record {
          round = 1;
          divisor = 1;
          plan = 16384 ∷ 5461 ∷ 5461 ∷ 5462 ∷ [];
          reply = record { total = pos 0; sets = [] };
        }) }
    ensures each_upper { (board_after (offers_in three_alike (plus_run three_alike 16384) 1 6)).upper
        ≡ Some (record {
          round = 1;
          divisor = 1;
          plan = 16384 ∷ [];
          reply = record { total = pos 0; sets = record { value = pos 0; choice = 1 } ∷ [] };
        }) }
    ensures fourth_lower { (board_after (offers_in three_alike (plus_run three_alike 16384) 4 6)).lower
        ≡ Some (record {
          round = 4;
          divisor = 10;
          plan = 163840 ∷ 54610 ∷ 54610 ∷ 54620 ∷ [];
          reply = record { total = pos 0; sets = [] };
        }) }
    ensures fourth_upper { (board_after (offers_in three_alike (plus_run three_alike 16384) 4 6)).upper
        ≡ Some (record {
          round = 4;
          divisor = 10;
          plan = 163840 ∷ [];
          reply = record { total = pos 0; sets = record { value = pos 0; choice = 1 } ∷ [] };
        }) }
{}

/// Rows: what the sums after rounds 1 to 4 and 6 are worth, of Kuhn poker, in units of 100.
pub fn plus_evaluations_of_kuhn_poker()
    ensures one { plus_evaluation kuhn 100 1
        ≡ record { round = 1; divisor = 1; low = negsuc 249; high = pos 300 } }
    ensures two { plus_evaluation kuhn 100 2
        ≡ record { round = 2; divisor = 3; low = negsuc 649; high = pos 500 } }
    ensures three { plus_evaluation kuhn 100 3
        ≡ record { round = 3; divisor = 6; low = negsuc 888; high = pos 1100 } }
    ensures four { plus_evaluation kuhn 100 4
        ≡ record { round = 4; divisor = 10; low = negsuc 1240; high = pos 968 } }
    ensures six { plus_evaluation kuhn 100 6
        ≡ record { round = 6; divisor = 21; low = negsuc 1056; high = pos 485 } }
{}

/// Rows: the traces of six rounds of this game, evaluated each round, each second and each fourth.
pub fn plus_traces_of_kuhn_poker()
    ensures each { trace (plus_evaluations kuhn 100 1 6)
        ≡ record { round = 1; low_round = 1; low = negsuc 249; high_round = 1; high = pos 300 }
        ∷ record { round = 2; low_round = 2; low = negsuc 649; high_round = 2; high = pos 500 }
        ∷ record { round = 3; low_round = 3; low = negsuc 888; high_round = 2; high = pos 500 }
        ∷ record { round = 4; low_round = 4; low = negsuc 1240; high_round = 4; high = pos 968 }
        ∷ record { round = 5; low_round = 5; low = negsuc 1350; high_round = 5; high = pos 577 }
        ∷ record { round = 6; low_round = 6; low = negsuc 1056; high_round = 6; high = pos 485 } ∷ [] }
    ensures second { trace (plus_evaluations kuhn 100 2 6)
        ≡ record { round = 2; low_round = 2; low = negsuc 649; high_round = 2; high = pos 500 }
        ∷ record { round = 4; low_round = 4; low = negsuc 1240; high_round = 4; high = pos 968 }
        ∷ record { round = 6; low_round = 6; low = negsuc 1056; high_round = 6; high = pos 485 } ∷ [] }
    ensures fourth { trace (plus_evaluations kuhn 100 4 6)
        ≡ record { round = 4; low_round = 4; low = negsuc 1240; high_round = 4; high = pos 968 }
        ∷ record { round = 6; low_round = 6; low = negsuc 1056; high_round = 6; high = pos 485 } ∷ [] }
{}

/// Rows: the ends of its runs of six rounds, evaluated each round and each fourth.
pub fn plus_ends_of_kuhn_poker()
    ensures each_lower { (board_after (offers_in kuhn (plus_run kuhn 100) 1 6)).lower
        ≡ Some (record {
          round = 6;
          divisor = 21;
          plan = 2100 ∷ 1766 ∷ 334 ∷ 1741 ∷ 25 ∷ 1658 ∷ 442 ∷ 837 ∷ 821 ∷ 1201 ∷ 899 ∷ 25 ∷ 1176 ∷ [];
          reply = record {
            total = negsuc 1056;
            sets =
                record { value = negsuc 564; choice = 1 }
                ∷ record { value = pos 1130; choice = 2 }
                ∷ record { value = negsuc 4269; choice = 2 }
                ∷ record { value = negsuc 1551; choice = 2 }
                ∷ record { value = pos 2859; choice = 1 }
                ∷ record { value = pos 1341; choice = 1 } ∷ [];
          };
        }) }
    ensures each_upper { (board_after (offers_in kuhn (plus_run kuhn 100) 1 6)).upper
        ≡ Some (record {
          round = 6;
          divisor = 21;
          plan = 2100 ∷ 1426 ∷ 674 ∷ 421 ∷ 1679 ∷ 50 ∷ 2050 ∷ 50 ∷ 2050 ∷ 1478 ∷ 622 ∷ 2050 ∷ 50 ∷ [];
          reply = record {
            total = pos 485;
            sets =
                record { value = negsuc 4199; choice = 1 }
                ∷ record { value = negsuc 2723; choice = 1 }
                ∷ record { value = negsuc 1243; choice = 1 }
                ∷ record { value = negsuc 2671; choice = 1 }
                ∷ record { value = pos 5929; choice = 2 }
                ∷ record { value = pos 2592; choice = 2 } ∷ [];
          };
        }) }
    ensures fourth_lower { (board_after (offers_in kuhn (plus_run kuhn 100) 4 6)).lower
        ≡ Some (record {
          round = 6;
          divisor = 21;
          plan = 2100 ∷ 1766 ∷ 334 ∷ 1741 ∷ 25 ∷ 1658 ∷ 442 ∷ 837 ∷ 821 ∷ 1201 ∷ 899 ∷ 25 ∷ 1176 ∷ [];
          reply = record {
            total = negsuc 1056;
            sets =
                record { value = negsuc 564; choice = 1 }
                ∷ record { value = pos 1130; choice = 2 }
                ∷ record { value = negsuc 4269; choice = 2 }
                ∷ record { value = negsuc 1551; choice = 2 }
                ∷ record { value = pos 2859; choice = 1 }
                ∷ record { value = pos 1341; choice = 1 } ∷ [];
          };
        }) }
    ensures fourth_upper { (board_after (offers_in kuhn (plus_run kuhn 100) 4 6)).upper
        ≡ Some (record {
          round = 6;
          divisor = 21;
          plan = 2100 ∷ 1426 ∷ 674 ∷ 421 ∷ 1679 ∷ 50 ∷ 2050 ∷ 50 ∷ 2050 ∷ 1478 ∷ 622 ∷ 2050 ∷ 50 ∷ [];
          reply = record {
            total = pos 485;
            sets =
                record { value = negsuc 4199; choice = 1 }
                ∷ record { value = negsuc 2723; choice = 1 }
                ∷ record { value = negsuc 1243; choice = 1 }
                ∷ record { value = negsuc 2671; choice = 1 }
                ∷ record { value = pos 5929; choice = 2 }
                ∷ record { value = pos 2592; choice = 2 } ∷ [];
          };
        }) }
{}

/// Rows: what the sums after rounds 1 to 4 and 6 are worth, of a game with chance, in units of 10.
pub fn plus_evaluations_of_two_deals()
    ensures one { plus_evaluation two_deals 10 1
        ≡ record { round = 1; divisor = 1; low = negsuc 19; high = pos 16 } }
    ensures two { plus_evaluation two_deals 10 2
        ≡ record { round = 2; divisor = 3; low = negsuc 59; high = negsuc 8 } }
    ensures three { plus_evaluation two_deals 10 3
        ≡ record { round = 3; divisor = 6; low = negsuc 78; high = negsuc 8 } }
    ensures four { plus_evaluation two_deals 10 4
        ≡ record { round = 4; divisor = 10; low = negsuc 198; high = pos 25 } }
    ensures six { plus_evaluation two_deals 10 6
        ≡ record { round = 6; divisor = 21; low = negsuc 427; high = pos 344 } }
{}

/// Rows: the traces of six rounds of this game, evaluated each round, each second and each fourth.
pub fn plus_traces_of_two_deals()
    ensures each { trace (plus_evaluations two_deals 10 1 6)
        ≡ record { round = 1; low_round = 1; low = negsuc 19; high_round = 1; high = pos 16 }
        ∷ record { round = 2; low_round = 1; low = negsuc 19; high_round = 2; high = negsuc 8 }
        ∷ record { round = 3; low_round = 3; low = negsuc 78; high_round = 2; high = negsuc 8 }
        ∷ record { round = 4; low_round = 3; low = negsuc 78; high_round = 2; high = negsuc 8 }
        ∷ record { round = 5; low_round = 3; low = negsuc 78; high_round = 2; high = negsuc 8 }
        ∷ record { round = 6; low_round = 3; low = negsuc 78; high_round = 2; high = negsuc 8 } ∷ [] }
    ensures second { trace (plus_evaluations two_deals 10 2 6)
        ≡ record { round = 2; low_round = 2; low = negsuc 59; high_round = 2; high = negsuc 8 }
        ∷ record { round = 4; low_round = 4; low = negsuc 198; high_round = 2; high = negsuc 8 }
        ∷ record { round = 6; low_round = 4; low = negsuc 198; high_round = 2; high = negsuc 8 } ∷ [] }
    ensures fourth { trace (plus_evaluations two_deals 10 4 6)
        ≡ record { round = 4; low_round = 4; low = negsuc 198; high_round = 4; high = pos 25 }
        ∷ record { round = 6; low_round = 4; low = negsuc 198; high_round = 4; high = pos 25 } ∷ [] }
{}

/// Rows: the ends of its runs of six rounds, evaluated each round and each fourth.
pub fn plus_ends_of_two_deals()
    ensures each_lower { (board_after (offers_in two_deals (plus_run two_deals 10) 1 6)).lower
        ≡ Some (record {
          round = 3;
          divisor = 6;
          plan = 60 ∷ 29 ∷ 31 ∷ 14 ∷ 15 ∷ 55 ∷ 5 ∷ 2 ∷ 3 ∷ [];
          reply = record { total = negsuc 78; sets = record { value = negsuc 78; choice = 2 } ∷ [] };
        }) }
    ensures each_upper { (board_after (offers_in two_deals (plus_run two_deals 10) 1 6)).upper
        ≡ Some (record {
          round = 2;
          divisor = 3;
          plan = 30 ∷ 23 ∷ 3 ∷ 4 ∷ [];
          reply = record {
            total = negsuc 8;
            sets =
                record { value = negsuc 8; choice = 1 }
                ∷ record { value = pos 0; choice = 1 }
                ∷ record { value = pos 0; choice = 1 }
                ∷ record { value = pos 24; choice = 2 } ∷ [];
          };
        }) }
    ensures fourth_lower { (board_after (offers_in two_deals (plus_run two_deals 10) 4 6)).lower
        ≡ Some (record {
          round = 4;
          divisor = 10;
          plan = 100 ∷ 69 ∷ 31 ∷ 34 ∷ 35 ∷ 95 ∷ 5 ∷ 2 ∷ 3 ∷ [];
          reply = record { total = negsuc 198; sets = record { value = negsuc 198; choice = 2 } ∷ [] };
        }) }
    ensures fourth_upper { (board_after (offers_in two_deals (plus_run two_deals 10) 4 6)).upper
        ≡ Some (record {
          round = 4;
          divisor = 10;
          plan = 100 ∷ 65 ∷ 31 ∷ 4 ∷ [];
          reply = record {
            total = pos 25;
            sets =
                record { value = negsuc 92; choice = 1 }
                ∷ record { value = pos 0; choice = 1 }
                ∷ record { value = pos 118; choice = 2 }
                ∷ record { value = pos 248; choice = 2 } ∷ [];
          };
        }) }
{}

/// Rows: the brackets of these runs: each end over the unit times the root of its plan.
#[tactic(auto, unfolding(def_fraction::specs::Divisors::gcd, def_fraction::specs::Fraction::fraction_of))]
pub fn plus_brackets()
    ensures one_mover_each_low { fraction_of (plus_evaluation one_mover 16 6).low (1 * (total_weight 6 * 16))
        ≡ record { num = pos 41; den = 42 } }
    ensures one_mover_each_high { fraction_of (plus_evaluation one_mover 16 1).high (1 * (total_weight 1 * 16))
        ≡ record { num = pos 1; den = 1 } }
    ensures one_mover_fourth_low { fraction_of (plus_evaluation one_mover 16 6).low (1 * (total_weight 6 * 16))
        ≡ record { num = pos 41; den = 42 } }
    ensures one_mover_fourth_high { fraction_of (plus_evaluation one_mover 16 4).high (1 * (total_weight 4 * 16))
        ≡ record { num = pos 1; den = 1 } }
    ensures pennies_each_low { fraction_of (plus_evaluation pennies 1 6).low (1 * (total_weight 6 * 1))
        ≡ record { num = negsuc 0; den = 7 } }
    ensures pennies_each_high { fraction_of (plus_evaluation pennies 1 6).high (1 * (total_weight 6 * 1))
        ≡ record { num = pos 1; den = 7 } }
    ensures pennies_fourth_low { fraction_of (plus_evaluation pennies 1 6).low (1 * (total_weight 6 * 1))
        ≡ record { num = negsuc 0; den = 7 } }
    ensures pennies_fourth_high { fraction_of (plus_evaluation pennies 1 6).high (1 * (total_weight 6 * 1))
        ≡ record { num = pos 1; den = 7 } }
    ensures pennies_in_sevenths_each_low { fraction_of (plus_evaluation pennies 7 3).low (1 * (total_weight 3 * 7))
        ≡ record { num = pos 0; den = 1 } }
    ensures pennies_in_sevenths_each_high { fraction_of (plus_evaluation pennies 7 4).high (1 * (total_weight 4 * 7))
        ≡ record { num = pos 3; den = 35 } }
    ensures pennies_in_sevenths_fourth_low { fraction_of (plus_evaluation pennies 7 6).low (1 * (total_weight 6 * 7))
        ≡ record { num = negsuc 4; den = 147 } }
    ensures pennies_in_sevenths_fourth_high { fraction_of (plus_evaluation pennies 7 4).high (1 * (total_weight 4 * 7))
        ≡ record { num = pos 3; den = 35 } }
    ensures three_alike_each_low { fraction_of (plus_evaluation three_alike 16384 1).low (1 * (total_weight 1 * 16384))
        ≡ record { num = pos 0; den = 1 } }
    ensures three_alike_each_high { fraction_of (plus_evaluation three_alike 16384 1).high
        (1 * (total_weight 1 * 16384))
        ≡ record { num = pos 0; den = 1 } }
    ensures three_alike_fourth_low { fraction_of (plus_evaluation three_alike 16384 4).low
        (1 * (total_weight 4 * 16384))
        ≡ record { num = pos 0; den = 1 } }
    ensures three_alike_fourth_high { fraction_of (plus_evaluation three_alike 16384 4).high
        (1 * (total_weight 4 * 16384))
        ≡ record { num = pos 0; den = 1 } }
    ensures kuhn_poker_each_low { fraction_of (plus_evaluation kuhn 100 6).low (6 * (total_weight 6 * 100))
        ≡ record { num = negsuc 150; den = 1800 } }
    ensures kuhn_poker_each_high { fraction_of (plus_evaluation kuhn 100 6).high (6 * (total_weight 6 * 100))
        ≡ record { num = pos 97; den = 2520 } }
    ensures kuhn_poker_fourth_low { fraction_of (plus_evaluation kuhn 100 6).low (6 * (total_weight 6 * 100))
        ≡ record { num = negsuc 150; den = 1800 } }
    ensures kuhn_poker_fourth_high { fraction_of (plus_evaluation kuhn 100 6).high (6 * (total_weight 6 * 100))
        ≡ record { num = pos 97; den = 2520 } }
    ensures two_deals_each_low { fraction_of (plus_evaluation two_deals 10 3).low (3 * (total_weight 3 * 10))
        ≡ record { num = negsuc 78; den = 180 } }
    ensures two_deals_each_high { fraction_of (plus_evaluation two_deals 10 2).high (3 * (total_weight 2 * 10))
        ≡ record { num = negsuc 0; den = 10 } }
    ensures two_deals_fourth_low { fraction_of (plus_evaluation two_deals 10 4).low (3 * (total_weight 4 * 10))
        ≡ record { num = negsuc 198; den = 300 } }
    ensures two_deals_fourth_high { fraction_of (plus_evaluation two_deals 10 4).high (3 * (total_weight 4 * 10))
        ≡ record { num = pos 1; den = 12 } }
{}

/// Rows: the whole outcomes of two rounds of one mover and of matching pennies, and of none.
pub fn plus_outcomes()
    ensures one_mover { let head : Head = record {
      nodes = 3;
      leaves = 2;
      sets_one = 1;
      sets_two = 0;
      sequences_one = 3;
      sequences_two = 1;
      unit = 1;
      sum = record { num = pos 0; den = 1 };
      mass = 1;
      rounds = 2;
      every = 1;
      scale = 16;
    } in
        plus_outcome one_mover head ≡ record {
          head = head;
          trace = record { round = 1; low_round = 1; low = pos 8; high_round = 1; high = pos 16 }
              ∷ record { round = 2; low_round = 2; low = pos 40; high_round = 1; high = pos 16 } ∷ [];
          ends = Some (record {
            lower = record { plan = 48 ∷ 40 ∷ 8 ∷ []; reply = record { total = pos 40; sets = [] } };
            upper = record {
              plan = 16 ∷ [];
              reply = record { total = pos 16; sets = record { value = pos 16; choice = 1 } ∷ [] };
            };
          });
        } }
    ensures pennies { let head : Head = record {
      nodes = 7;
      leaves = 4;
      sets_one = 1;
      sets_two = 1;
      sequences_one = 3;
      sequences_two = 3;
      unit = 1;
      sum = record { num = pos 0; den = 1 };
      mass = 4;
      rounds = 2;
      every = 1;
      scale = 1;
    } in
        plus_outcome pennies head ≡ record {
          head = head;
          trace = record { round = 1; low_round = 1; low = negsuc 0; high_round = 1; high = pos 1 }
              ∷ record { round = 2; low_round = 1; low = negsuc 0; high_round = 2; high = pos 1 } ∷ [];
          ends = Some (record {
            lower = record {
              plan = 1 ∷ 0 ∷ 1 ∷ [];
              reply = record { total = negsuc 0; sets = record { value = negsuc 0; choice = 1 } ∷ [] };
            };
            upper = record {
              plan = 3 ∷ 2 ∷ 1 ∷ [];
              reply = record { total = pos 1; sets = record { value = pos 1; choice = 1 } ∷ [] };
            };
          });
        } }
    ensures no_rounds { let head : Head = record {
      nodes = 7;
      leaves = 4;
      sets_one = 1;
      sets_two = 1;
      sequences_one = 3;
      sequences_two = 3;
      unit = 1;
      sum = record { num = pos 0; den = 1 };
      mass = 4;
      rounds = 0;
      every = 1;
      scale = 16384;
    } in
        plus_outcome pennies head ≡ record { head = head; trace = []; ends = None } }
{}
