//! Laws of `def_game_numbers`: the numbers of a game file: what weighing its leaves answers, and the sequence form
//! that stands on it.

ghost use Rattle.def_game_numbers.specs.Laws.{FormStandsOnAnswers, NumbersRefusedWithTheFirst};
ghost use Rattle.def_game_numbers.specs.Laws.{TablesAreFractions, WeighsExactly, WeightsFit};
ghost use Rattle.def_game_numbers.specs.Rows.{FileRows, HeadRows};
ghost use Rattle.def_game_numbers.specs.WholeSums.{FaultlessGamesHaveWholeSums};

/// Where a file's fractions are in lowest terms, those of its tables are.
pub fn tables_are_fractions()
    ensures { TablesAreFractions }
{}

/// With tables in lowest terms, weighing refuses exactly the first fault of the numbers, and else answers the sum, the
/// unit, the weights and the mass.
pub fn weighs_exactly()
    ensures { WeighsExactly }
{}

/// Weighing, and then building the sets, refuses with the game's first fault, and both accept only a game without one.
pub fn numbers_refused_with_the_first()
    ensures { NumbersRefusedWithTheFirst }
{}

/// With tables in lowest terms, the unit that weighing answers is at least 1, and the sum's parts, the unit, the size
/// of the sum in it, the mass and each weight's size are at most 2^62.
pub fn weights_fit()
    ensures { WeightsFit }
{}

/// The form that stands on what weighing and building the sets answer is the game's, with these sets and this mass.
pub fn form_stands_on_answers()
    ensures { FormStandsOnAnswers }
{}

/// In the unit of a file's game without a fault the sum is whole, and within the limit.
pub fn faultless_games_have_whole_sums()
    ensures { FaultlessGamesHaveWholeSums }
{}

/// A fault of the numbers refuses a file; a lack of recall doesn't refuse weighing, and building the sets finds it.
pub fn file_rows()
    ensures { FileRows }
{}

/// Five small games have so many nodes, leaves, sets and sequences, and their forms have these leaves.
pub fn head_rows()
    ensures { HeadRows }
{}
