//! A plan that is added several times to a sum.
ghost use Rattle.std.specs.Prelude.{◌≡◌, ◌+◌, ◌≤◌, [], ◌∷◌, IfOk};
ghost use Rattle.def_plan.specs.Form.{player_sets};
ghost use Rattle.def_plan.specs.Pennies.{one_set};
ghost use Rattle.def_plus.specs.Multiple.{multiple};

use crate::bracket_tests::{pennies, plan_of};
use std::alloc::{AllocError, Global};
use std::process::Abort;
use std::test::Fail;
use xg_plan::{Plan, Player, add_times, add_to};
use xg_seq::SeqForm;

/// Adds the plan so many times to a sum in which it is so many times already.
fn add_more(sum: &mut Plan, plan: &Plan, had: u64, times: u64)
    requires plan { plan.now ≡ 3 ∷ 1 ∷ 2 ∷ [] }
    requires sum { sum.old ≡ multiple had (3 ∷ 1 ∷ 2 ∷ []) }
    requires few { had + times ≤ 1000 }
    ensures { sum.new ≡ multiple (had + times) (3 ∷ 1 ∷ 2 ∷ []) }
{
    add_times(sum, plan, times);
}

/// Adds the plan to a cleared sum.
fn add_first(sum: &mut Plan, plan: &Plan)
    requires plan { plan.now ≡ 3 ∷ 1 ∷ 2 ∷ [] }
    requires sum { sum.old ≡ 0 ∷ 0 ∷ 0 ∷ [] }
{
    add_to(sum, plan);
}

fn cleared(alloc: Global, form: &SeqForm) -> Result<Plan, AllocError>
    requires { player_sets form.now Player.One ≡ one_set }
    ensures { IfOk result (λ plan. plan ≡ 0 ∷ 0 ∷ 0 ∷ []) }
{
    Plan::new(alloc, form, Player::One)
}

fn three_units(alloc: Global, form: &SeqForm) -> Result<Plan, AllocError>
    requires { player_sets form.now Player.One ≡ one_set }
    ensures { IfOk result (λ plan. plan ≡ 3 ∷ 1 ∷ 2 ∷ []) }
{
    plan_of(alloc, form, Player::One, 21_846, 3)
}

fn assert_sums(rt: &impl Abort, alloc: Global, form: &SeqForm) -> Result<(), AllocError>
    requires { player_sets form.now Player.One ≡ one_set }
{
    let plan = three_units(alloc, form)?;
    let mut once = cleared(alloc, form)?;
    let mut sum = cleared(alloc, form)?;
    add_first(&mut once, &plan);
    add_more(&mut sum, &plan, 0, 0);
    let is_cleared = sum.weights() == [0, 0, 0].as_slice();
    add_more(&mut sum, &plan, 0, 1);
    let is_once = sum.weights() == once.weights();
    add_more(&mut sum, &plan, 1, 5);
    add_more(&mut sum, &plan, 6, 0);
    assert!(rt; is_cleared && is_once && sum.weights() == [18, 6, 12].as_slice());
    Ok(())
}

#[test]
fn adds_a_plan_several_times(rt: HostRuntime) -> Result<(), Fail> {
    let form = pennies(&rt, rt.alloc())?;
    let asserted = assert_sums(&rt, rt.alloc(), &form);
    drop(form);
    Ok(asserted?)
}
