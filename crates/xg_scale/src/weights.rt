//! The weights of a game's leaves.
ghost use Rattle.std.specs.Prelude.{◌≡◌, ◌≤◌, ◌<◌, ◌+◌, ◌^◌, [], None, map, nat_le, sum, unsigned_abs, unwrap_or};
ghost use Rattle.std.specs.Prelude.{IfErr, IfOk, OnErr, OnOk};
ghost use Rattle.def_fraction.specs.Fraction.{most, signed, zero_fraction};
ghost use Rattle.def_game_scale.specs.Faults.{found_by, mass_fault, whole_sum_fault};
ghost use Rattle.def_game_numbers.specs.Numbers.{tables_of, weights_of_game};
ghost use Rattle.def_game_paths.specs.Paths.{visits};
ghost use Rattle.def_game_scale.specs.Scale.{game_unit, weight_of, whole_sum};
ghost use Rattle.def_game_scale.specs.Tables.{AreFractions};
ghost use Rattle.def_sums.specs.Limits.{most_mass};
ghost use Rattle.def_tree.specs.Tree.{node_count};
ghost use Rattle.xg_scale.specs.FaultOfFile.{IsFaultOf, RefusesBy};
ghost use Rattle.xg_scale.specs.Walked.{IsExpectedOf};
ghost use Rattle.xg_scale.specs.Weighed.{HasWeighed, IsLeafWeighed};

use crate::leaf::Expected;
use crate::parts::{denominator, is_negative, size};
use def_sums::MOST_MASS;
use std::alloc::Global;
use std::marker::Model;
use xg_frac::{Frac, OverLimit, with_sign, zero};
use xg_game::{FileFault, Game, Refused};
use xg_tree::is_leaf;

/// What each leaf of a game pays both players together, the unit of the game, the weights of its leaves in prefix
/// order, and their mass, which is the sum of their sizes.
///
/// A weight is the unit times reach times player one's payoff. The unit is the least that makes all weights whole, and
/// the sum times the unit too.
#[derive(Drop)]
pub struct Weights {
    sum: Frac,
    unit: u64,
    weighed: Weighed,
}

impl Model for Weights {
    ghost use Rattle.def_game_numbers.specs.Numbers.{GameWeights};
    ghost use Rattle.xg_scale.specs.Weighed.{KeepsWeights, weights_with};

    ghost Value = { GameWeights };

    ghost view = { λ w. weights_with w.sum w.unit w.weighed };

    ghost invariant = { λ w. KeepsWeights (weights_with w.sum w.unit w.weighed) };
}

impl Weights {
    /// What each leaf pays both players together: 0 in a zero-sum game.
    pub fn sum(&self) -> Frac
        ensures { result ≡ self.now.sum }
    {
        self.sum
    }

    /// The number by which reach times payoff is multiplied.
    pub fn unit(&self) -> u64
        ensures unit { result ≡ self.now.unit }

        // What is true of all weights.
        ensures positive { 1 ≤ result }
        ensures limit { result ≤ most }
    {
        self.unit
    }

    /// The sum of the sizes of the weights.
    pub fn mass(&self) -> u64
        ensures mass { result ≡ self.now.mass }

        // What is true of all weights.
        ensures limit { result ≤ most_mass }
    {
        self.weighed.mass
    }

    /// The weights, one for each leaf.
    pub fn leaves(&self) -> &[i64]
        ensures leaves { result.now ≡ self.now.leaves }

        // What is true of all weights.
        ensures mass { sum (map unsigned_abs result.now) ≡ self.now.mass }
        ensures limit { sum (map unsigned_abs result.now) ≤ most_mass }
    {
        &self.weighed.leaves
    }
}

/// The weights of the leaves so far, and their mass.
#[derive(Drop)]
pub(crate) struct Weighed {
    mass: u64,
    leaves: Vec<i64>,
}

impl Weighed {
    /// Weighs the node that comes after the first `k`, if it is a leaf.
    fn enter(&mut self, game: &Game, k: u32, expected: &Expected) -> Result<(), Refused>
        requires lowest { AreFractions (tables_of game.now) }
        requires expected { IsExpectedOf (tables_of game.now) game.now.tree expected.now }
        requires there { k < node_count game.now.tree }
        requires weighed { HasWeighed (tables_of game.now) game.now.tree expected.now.unit k self.old }
        ensures ok { OnOk result
            (HasWeighed (tables_of game.now) game.now.tree expected.now.unit (k + 1) self.new) }
        ensures err { IfErr result (RefusesBy
            (found_by (mass_fault (tables_of game.now) expected.now.unit) [] (visits game.now.tree))) }
    {
        if !is_leaf(game.tree().node(k + 1)) {
            return Ok(());
        }
        let fraction = expected.fractions[self.leaves.len()];
        let Ok(leaf) = weigh_leaf(self.mass, expected.unit, fraction) else {
            return Err(Refused::File(FileFault::Scale { node: k + 1 }));
        };
        let Ok(()) = self.leaves.push(leaf.weight) else {
            return Err(Refused::NoMemory);
        };
        self.mass = leaf.mass;
        Ok(())
    }
}

/// Asks at the first leaf whether the sum, in the unit, is within the limit.
pub(crate) fn check_whole_sum(game: &Game, expected: &Expected) -> Result<(), FileFault>
    requires expected { IsExpectedOf (tables_of game.now) game.now.tree expected.now }
    ensures ok { let size = unsigned_abs (whole_sum (tables_of game.now) game.now.tree) in
        OnOk result (found_by (whole_sum_fault size) [] (visits game.now.tree) ≡ None) }
    ensures err { let size = unsigned_abs (whole_sum (tables_of game.now) game.now.tree) in
        IfErr result (IsFaultOf (found_by (whole_sum_fault size) [] (visits game.now.tree))) }
{
    if is_whole_within(sum_of_leaves(expected), expected.unit) {
        return Ok(());
    }
    let tree = game.tree();
    for k in 0..tree.len() {
        if is_leaf(tree.node(k + 1)) {
            return Err(FileFault::Scale { node: k + 1 });
        }
    }
    Ok(())
}

/// What each leaf pays both players together.
fn sum_of_leaves(expected: &Expected) -> Frac
    ensures { result ≡ unwrap_or expected.now.sum zero_fraction }
{
    match expected.sum {
        Some(sum) => sum,
        None => zero(),
    }
}

/// Whether so many times the fraction, whose denominator divides this number, is within the limit.
fn is_whole_within(fraction: Frac, times: u64) -> bool
    requires { times ≤ most }
    ensures { result ≡ nat_le (unsigned_abs (weight_of times fraction)) most }
{
    size(fraction) as u128 * (times / denominator(fraction)) as u128 <= MOST_MASS as u128
}

/// Weighs the leaves of a game by what they are expected to pay, in order.
pub(crate) fn weigh_leaves(
    alloc: Global,
    game: &Game,
    expected: &Expected,
) -> Result<Weights, Refused>
    requires lowest { AreFractions (tables_of game.now) }
    requires expected { IsExpectedOf (tables_of game.now) game.now.tree expected.now }
    ensures ok { IfOk result (λ weights. weights ≡ weights_of_game (tables_of game.now) game.now.tree) }
    ensures passes { let test = mass_fault (tables_of game.now) (game_unit (tables_of game.now) game.now.tree) in
        OnOk result (found_by test [] (visits game.now.tree) ≡ None) }
    ensures err { let test = mass_fault (tables_of game.now) (game_unit (tables_of game.now) game.now.tree) in
        IfErr result (RefusesBy (found_by test [] (visits game.now.tree))) }
{
    let mut weighed = Weighed {
        mass: 0,
        leaves: Vec::with_capacity(alloc, game.tree().leaves() as usize)?,
    };
    for k in 0..game.tree().len() {
        weighed.enter(game, k, expected)?;
    }
    Ok(Weights {
        sum: sum_of_leaves(expected),
        unit: expected.unit,
        weighed,
    })
}

/// A leaf's weight, and the mass with it.
#[derive(Clone, Copy)]
struct WeighedLeaf {
    weight: i64,
    mass: u64,
}

fn weigh_leaf(so_far: u64, times: u64, fraction: Frac) -> Result<WeighedLeaf, OverLimit>
    requires mass { so_far ≤ most }
    requires limit { times ≤ most }
    ensures ok { IfOk result (IsLeafWeighed so_far (weight_of times fraction)) }
    ensures limit { OnOk result (so_far + unsigned_abs (weight_of times fraction) ≤ most) }
    ensures err { OnErr result (most < so_far + unsigned_abs (weight_of times fraction)) }
{
    let size = size(fraction) as u128 * (times / denominator(fraction)) as u128;
    let mass = so_far as u128 + size;
    if mass > MOST_MASS as u128 {
        return Err(OverLimit);
    }
    Ok(WeighedLeaf {
        weight: with_sign(is_negative(fraction), size as u64),
        mass: mass as u64,
    })
}
