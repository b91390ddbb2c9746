//! The weighing of a game.
ghost use Rattle.std.specs.Prelude.{◌≡◌, [], Err, IfErr, IfOk, Ok, OnOk, length};
ghost use Rattle.std.specs.List.{AllZip};
ghost use Rattle.def_file.specs.declared.FileFault.{FileFault};
ghost use Rattle.def_game_scale.specs.FaultLaws.{HasSoundNumbers};
ghost use Rattle.def_game_numbers.specs.Laws.{AreWeights};
ghost use Rattle.def_game_numbers.specs.Numbers.{GameWeights, tables_of, weigh};
ghost use Rattle.def_game_paths.specs.Paths.{leaf_visits, visits};
ghost use Rattle.def_game_scale.specs.Faults.{found_by, node_fault};
ghost use Rattle.def_payoffs.specs.Range.{IsPayoffRange};
ghost use Rattle.xg_scale.specs.FaultOfFile.{RefusesBy};
ghost use Rattle.def_game_scale.specs.Laws.{IsWeightOf};
ghost use Rattle.def_game_scale.specs.Tables.{AreFractions};
ghost use Rattle.def_tree.specs.Tree.{leaf_count, prefix};
ghost use Rattle.xg_game.specs.Refusals.{Answers};
ghost use Rattle.xg_scale.specs.Words.{HasNoNumberFault, IsCommonMultiple, IsFirstNumberFault, IsLeastCommonMultiple};

use crate::chance::{SetTest, check_sets};
use crate::nodes::expect;
use crate::range::PayoffRange;
use crate::weights::{Weights, check_whole_sum, weigh_leaves};
use std::alloc::Global;
use xg_game::{Game, Refused};

/// What each leaf of a game pays both players together, the unit of the game, the weights of its leaves and their mass.
///
/// Memory apart, the answer is the weights, or the first fault of the game's numbers: a probability below 0, a chance
/// set whose probabilities don't add up to 1, a leaf whose payoffs don't add up to what those of the first one do, or a
/// number past 2^62.
pub fn weigh(alloc: Global, game: &Game) -> Result<Weights, Refused>
    ensures exact { Answers result (weigh game.now) }

    // A fault is the first of the game's numbers, and the first one is the fault.
    ensures first { (fault : FileFault) → result ≡ Err (Refused.File fault) → IsFirstNumberFault game.now fault }
    ensures faults { (fault : FileFault) → IsFirstNumberFault game.now fault → Answers result (Err fault) }

    // What is weighed has no fault, and each game without one is weighed.
    ensures faultless { OnOk result (HasNoNumberFault game.now) }
    ensures sound { OnOk result (HasSoundNumbers (tables_of game.now) game.now.tree) }
    ensures weighed { (weights : GameWeights) → HasNoNumberFault game.now →
        AreWeights (tables_of game.now) game.now.tree weights → Answers result (Ok weights) }

    // The unit is the least common multiple of the denominators of the sum and of reach times payoff.
    ensures unit { IfOk result (λ weights. IsCommonMultiple game.now weights.unit) }
    ensures least { IfOk result (λ weights. IsLeastCommonMultiple game.now weights.unit) }

    // Each leaf has one weight, the unit times reach times payoff.
    ensures leaves { IfOk result (λ weights.
        AllZip (IsWeightOf (tables_of game.now) weights.unit) (leaf_visits game.now.tree) weights.leaves) }
    ensures count { IfOk result (λ weights. length weights.leaves ≡ leaf_count (prefix game.now.tree)) }
{
    game.numbers_are_in_lowest_terms();
    weigh_exactly(alloc, game)
}

/// The least and the greatest of what the leaves of a game pay player one, by a walk over its nodes. A game with a
/// fault may be refused by it.
pub fn payoff_range(alloc: Global, game: &Game) -> Result<PayoffRange, Refused>
    ensures range { IfOk result (λ range.
        IsPayoffRange (tables_of game.now) game.now.tree range.least range.greatest) }
    ensures refused { IfErr result (RefusesBy (found_by (node_fault (tables_of game.now)) [] (visits game.now.tree))) }
    ensures faultless { HasNoNumberFault game.now → IfErr result (λ refused. refused ≡ Refused.NoMemory) }
{
    game.numbers_are_in_lowest_terms();
    range_exactly(alloc, game)
}

fn range_exactly(alloc: Global, game: &Game) -> Result<PayoffRange, Refused>
    requires { AreFractions (tables_of game.now) }
    ensures range { IfOk result (λ range.
        IsPayoffRange (tables_of game.now) game.now.tree range.least range.greatest) }
    ensures refused { IfErr result (RefusesBy (found_by (node_fault (tables_of game.now)) [] (visits game.now.tree))) }
{
    let _tree = game.tree();
    let expected = expect(alloc, game)?;
    let range = expected.range;
    drop(expected);
    match range {
        Some(range) => Ok(range),
        None => unreachable!(),
    }
}

fn weigh_exactly(alloc: Global, game: &Game) -> Result<Weights, Refused>
    requires { AreFractions (tables_of game.now) }
    ensures { Answers result (weigh game.now) }
{
    check_sets(game, SetTest::Signs)?;
    check_sets(game, SetTest::Sums)?;
    let expected = expect(alloc, game)?;
    let weights = match check_whole_sum(game, &expected) {
        Ok(()) => weigh_leaves(alloc, game, &expected),
        Err(fault) => Err(Refused::File(fault)),
    };
    drop(expected);
    weights
}
