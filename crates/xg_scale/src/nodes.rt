//! The walk over all nodes: the reach and the payoffs of each path, what leaves pay both players together, and the
//! unit.
ghost use Rattle.std.specs.Prelude.{◌≡◌, ◌≤◌, [], length, IfErr, IfOk, IsTrue, OkIff, OnOk};
ghost use Rattle.def_fraction.specs.Fraction.{fits, sum_of};
ghost use Rattle.def_game_scale.specs.Faults.{found_by, node_fault};
ghost use Rattle.def_game_numbers.specs.Numbers.{tables_of};
ghost use Rattle.def_game_paths.specs.Paths.{visits};
ghost use Rattle.def_game_scale.specs.Tables.{AreFractions, payoffs_of};
ghost use Rattle.xg_scale.specs.FaultOfFile.{RefusesBy};
ghost use Rattle.xg_scale.specs.OnPath.{HasNodeAround};
ghost use Rattle.xg_scale.specs.Walked.{HasEntered, HasLeft, IsBefore, IsExpectedOf, MayCome, MayComeNext, all_fit};
ghost use Rattle.xg_scale.specs.Walked.{next_fault, numbers_below, paid_to, reach_below};

use crate::leaf::Expected;
use crate::parts::known;
use crate::path::{NodeOnPath, PathNumbers};
use crate::products::Products;
use crate::walk_path::WalkPath;
use std::alloc::{AllocError, Global};
use xg_frac::{Frac, OverLimit, add, mul};
use xg_game::{FileFault, Game, Player, Refused};
use xg_tree::{Node, Visitor};

/// What each leaf is expected to pay, what it pays both players together, the unit, and the range of the payoffs.
pub(crate) fn expect(alloc: Global, game: &Game) -> Result<Expected, Refused>
    requires { AreFractions (tables_of game.now) }
    ensures ok { IfOk result (IsExpectedOf (tables_of game.now) game.now.tree) }
    ensures err { IfErr result
        (RefusesBy (found_by (node_fault (tables_of game.now)) [] (visits game.now.tree))) }
{
    let mut visitor = PathVisitor::new(alloc, game)?;
    game.tree().walk(&mut visitor);
    match visitor.refused {
        Some(refused) => Err(refused),
        None => Ok(visitor.walk.expected),
    }
}

/// Judges each node as it is entered, up to the first refusal.
#[derive(Drop)]
struct PathVisitor<'a> {
    walk: PathWalk<'a>,
    refused: Option<Refused>,
}

impl<'a> PathVisitor<'a> {
    /// No node yet, and room for what each leaf is expected to pay.
    fn new(alloc: Global, game: &'a Game) -> Result<PathVisitor<'a>, AllocError>
        ensures { IfOk result (IsBefore game.now) }
    {
        let products = Products::new(alloc)?;
        let fractions = Vec::with_capacity(alloc, game.tree().leaves() as usize)?;
        let walk = PathWalk {
            game,
            path: WalkPath::new(alloc),
            expected: Expected {
                products,
                sum: None,
                unit: 1,
                fractions,
                range: None,
            },
        };
        Ok(PathVisitor {
            walk,
            refused: None,
        })
    }
}

impl<'a> Visitor for PathVisitor<'a> {
    ghost use Rattle.xg_scale.specs.Walked.{Enters, Leaves, MayEnter, MayLeave};

    ghost may_enter = { MayEnter };

    ghost enters = { Enters };

    ghost may_leave = { MayLeave };

    ghost leaves = { Leaves };

    fn enter(&mut self, k: u32, node: Node) {
        if self.refused.is_none() {
            if let Err(refused) = self.walk.enter(k, node) {
                self.refused = Some(refused);
            }
        }
    }

    fn leave(&mut self, _k: u32) {
        if self.refused.is_none() {
            self.walk.leave();
        }
    }
}

/// The nodes that were entered and aren't left yet, and what the leaves so far are expected to pay.
#[derive(Drop)]
struct PathWalk<'a> {
    game: &'a Game,
    path: WalkPath,
    expected: Expected,
}

impl<'a> PathWalk<'a> {
    /// Judges node `k`, which comes next, and goes on below it.
    #[inline(always)]
    fn enter(&mut self, k: u32, node: Node) -> Result<(), Refused>
        requires { MayComeNext self.old node }
        ensures game { self.new.game.now ≡ self.old.game.now }
        ensures ok { OnOk result (HasEntered self.old k node self.new) }
        ensures err { IfErr result (RefusesBy (next_fault self.old k node)) }
    {
        let Ok(numbers) = numbers_at(self.game, self.path.innermost(), node) else {
            return Err(Refused::File(FileFault::Scale { node: k }));
        };
        self.expected.judge(k, node, &numbers)?;
        self.path.enter(node, numbers)?;
        Ok(())
    }

    /// Goes back to the node around the innermost, at its next action.
    #[inline(always)]
    fn leave(&mut self)
        requires { HasNodeAround self.old.path.outer }
        ensures game { self.new.game.now ≡ self.old.game.now }
        ensures left { HasLeft self.old self.new }
    {
        self.path.leave();
    }
}

/// The numbers at the next child of a node.
#[inline(always)]
fn numbers_at(game: &Game, above: &NodeOnPath, node: Node) -> Result<PathNumbers, OverLimit>
    requires action { MayCome game.now above.now }
    requires outcome { node.outcome ≤ length game.now.outcomes }
    ensures { let exact = numbers_below (tables_of game.now) above.now node in
        OkIff result (IsTrue (all_fit exact)) exact }
{
    let reach = reach_at(game, above)?;
    let one = paid(game, above.numbers.one, node.outcome, Player::One)?;
    let two = paid(game, above.numbers.two, node.outcome, Player::Two)?;
    Ok(PathNumbers { reach, one, two })
}

/// The reach of the next child.
#[inline(always)]
fn reach_at(game: &Game, above: &NodeOnPath) -> Result<Frac, OverLimit>
    requires { MayCome game.now above.now }
    ensures { let so_far = above.now.numbers.reach in
        let exact = reach_below (tables_of game.now) above.now.chance_set above.now.action so_far in
        OkIff result (IsTrue (fits exact)) exact }
{
    match above.chance_set {
        Some(set) => mul(above.numbers.reach, game.chance(set, above.action)),
        None => Ok(known(above.numbers.reach)),
    }
}

/// What a player has been paid, with the payoff of an outcome.
#[inline(always)]
fn paid(game: &Game, so_far: Frac, outcome: u32, player: Player) -> Result<Frac, OverLimit>
    requires { outcome ≤ length game.now.outcomes }
    ensures { let exact = sum_of so_far (paid_to player (payoffs_of (tables_of game.now) outcome)) in
        OkIff result (IsTrue (fits exact)) exact }
{
    let so_far = known(so_far);
    if outcome == 0 {
        return Ok(so_far);
    }
    let payoff = game.payoff(outcome, player);
    // Most games pay at leaves alone.
    if so_far.is_zero() {
        return Ok(known(payoff));
    }
    add(so_far, payoff)
}
