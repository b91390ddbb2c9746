//! The two walks over the chance sets: the signs of their probabilities, and their sums.
ghost use Rattle.std.specs.Prelude.{◌≡◌, ◌&&◌, ◌≤◌, [], length, nat_lt, None, IfErr, OnOk};
ghost use Rattle.def_game_scale.specs.Faults.{found_by};
ghost use Rattle.def_game_paths.specs.Paths.{visits};
ghost use Rattle.def_game_scale.specs.Tables.{probabilities};
ghost use Rattle.def_game_numbers.specs.Numbers.{tables_of};
ghost use Rattle.def_tree.specs.Rules.{is_same_kind};
ghost use Rattle.xg_scale.specs.Chance.{set_fault, node_test_of};
ghost use Rattle.xg_scale.specs.FaultOfFile.{IsFaultOf};

use crate::parts::{is_negative, is_one};
use xg_frac::{add, zero};
use xg_game::{FileFault, Game, Kind};
use xg_tree::Node;

/// What a walk asks of each chance set.
#[derive(Clone, Copy)]
pub(crate) enum SetTest {
    Signs,
    Sums,
}

/// Asks each chance set. Only where one fails are the nodes gone through, for the first node of the first that does.
pub(crate) fn check_sets(game: &Game, test: SetTest) -> Result<(), FileFault>
    ensures ok { OnOk result (found_by (node_test_of test (tables_of game.now)) [] (visits game.now.tree) ≡ None) }
    ensures err { IfErr result (IsFaultOf (found_by (node_test_of test (tables_of game.now)) []
        (visits game.now.tree))) }
{
    let _tree = game.tree();
    for set in 0..game.set_count(Kind::Chance) {
        let Ok(()) = check_set(game, set + 1, 0, test) else {
            return check_by_nodes(game, test);
        };
    }
    Ok(())
}

/// Asks each chance set in the order of their first nodes.
fn check_by_nodes(game: &Game, test: SetTest) -> Result<(), FileFault>
    ensures ok { OnOk result (found_by (node_test_of test (tables_of game.now)) [] (visits game.now.tree) ≡ None) }
    ensures err { IfErr result (IsFaultOf (found_by (node_test_of test (tables_of game.now)) []
        (visits game.now.tree))) }
{
    let tree = game.tree();
    let mut seen = 0;
    for k in 0..tree.len() {
        let node = tree.node(k + 1);
        if opens_set(node, seen) {
            check_set(game, node.set, k + 1, test)?;
            seen = node.set;
        }
    }
    Ok(())
}

/// Whether chance moves at the node, in a set behind the first `seen`.
fn opens_set(node: Node, seen: u32) -> bool
    ensures { result ≡ is_same_kind Kind.Chance node.kind && nat_lt seen node.set }
{
    node.set > seen && matches!(node.kind, Kind::Chance)
}

/// Asks a set, whose first node is `node`.
fn check_set(game: &Game, set: u32, node: u32, test: SetTest) -> Result<(), FileFault>
    requires from_one { 1 ≤ set }
    requires there { set ≤ length game.now.sets.chance }
    ensures ok { OnOk result (set_fault test node (probabilities (tables_of game.now) set) ≡ None) }
    ensures err { IfErr result (IsFaultOf (set_fault test node (probabilities (tables_of game.now) set))) }
{
    match test {
        SetTest::Signs => check_signs(game, set, node),
        SetTest::Sums => check_sums(game, set, node),
    }
}

fn check_signs(game: &Game, set: u32, node: u32) -> Result<(), FileFault>
    requires from_one { 1 ≤ set }
    requires there { set ≤ length game.now.sets.chance }
    ensures ok { OnOk result (set_fault SetTest.Signs node (probabilities (tables_of game.now) set) ≡ None) }
    ensures err { IfErr result (IsFaultOf (set_fault SetTest.Signs node (probabilities (tables_of game.now) set))) }
{
    for action in 0..game.action_count(Kind::Chance, set) {
        if is_negative(game.chance(set, action + 1)) {
            return Err(FileFault::ChanceNegative { node });
        }
    }
    Ok(())
}

fn check_sums(game: &Game, set: u32, node: u32) -> Result<(), FileFault>
    requires from_one { 1 ≤ set }
    requires there { set ≤ length game.now.sets.chance }
    ensures ok { OnOk result (set_fault SetTest.Sums node (probabilities (tables_of game.now) set) ≡ None) }
    ensures err { IfErr result (IsFaultOf (set_fault SetTest.Sums node (probabilities (tables_of game.now) set))) }
{
    let mut sum = zero();
    for action in 0..game.action_count(Kind::Chance, set) {
        let Ok(more) = add(sum, game.chance(set, action + 1)) else {
            return Err(FileFault::Scale { node });
        };
        sum = more;
    }
    if !is_one(sum) {
        return Err(FileFault::ChanceSum { node });
    }
    Ok(())
}
