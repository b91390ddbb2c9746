//! Sums of plans.
ghost use Rattle.std.specs.Prelude.{◌≡◌, ℕ, ◌+◌, ◌*◌, ◌^◌, ◌<◌, ◌≤◌, List, length, slice_index};
ghost use Rattle.def_sums.specs.Limits.{most_root};
ghost use Rattle.def_plan.specs.Form.{InformationSet};
ghost use Rattle.def_plan.specs.Plan.{IsPlan, added};
ghost use Rattle.def_plus.specs.Multiple.{added_times};
ghost use Rattle.xg_plan.specs.Plan.{AreOfOneForm};

use crate::plan::Plan;

/// Adds a plan to a sum of plans of its player, sequence by sequence. Nothing but a cleared plan is no plan.
pub fn add_to(sum: &mut Plan, plan: &Plan)
    requires as_many { length sum.old ≡ length plan.now }
    requires limit { slice_index sum.old 0 + slice_index plan.now 0 ≤ most_root }
    requires one_form { AreOfOneForm sum.old plan.now }
    ensures sum { sum.new ≡ added sum.old plan.now }
    ensures is_plan { (sets : List InformationSet) → (root other_root : ℕ)
        → IsPlan sets root sum.old → IsPlan sets other_root plan.now
        → IsPlan sets (root + other_root) sum.new }
{
    add_times(sum, plan, 1);
}

/// Adds a plan so many times to a sum of plans of its player, as a plan of a later round counts more (Tammelin 2014).
/// Nothing but a cleared plan is no plan. Takes no memory.
pub fn add_times(sum: &mut Plan, plan: &Plan, times: u64)
    requires as_many { length sum.old ≡ length plan.now }
    requires limit { slice_index sum.old 0 + times * slice_index plan.now 0 ≤ most_root }
    requires one_form { AreOfOneForm sum.old plan.now }
    ensures sum { sum.new ≡ added_times sum.old plan.now times }
    ensures is_plan { (sets : List InformationSet) → (root other_root : ℕ)
        → IsPlan sets root sum.old → IsPlan sets other_root plan.now
        → IsPlan sets (root + times * other_root) sum.new }
    ensures never { times ≡ 0 → sum.new ≡ sum.old }
    ensures cleared { slice_index plan.now 0 ≡ 0 → sum.new ≡ sum.old }
{
    add_plan(sum, plan, times);
}

fn add_plan(sum: &mut Plan, plan: &Plan, times: u64)
    requires as_many { length sum.old ≡ length plan.now }
    requires limit { slice_index sum.old 0 + times * slice_index plan.now 0 ≤ most_root }
    requires one_form { AreOfOneForm sum.old plan.now }
    ensures { sum.new ≡ added_times sum.old plan.now times }
{
    add_weights(&mut sum.weights, &plan.weights, times);
}

fn add_weights(weights: &mut [u64], others: &[u64], times: u64)
    requires as_many { length weights.old ≡ length others.now }
    requires small { (s : ℕ) → slice_index weights.old s + times * slice_index others.now s < 2 ^ 64 }
    ensures { weights.new ≡ added_times weights.old others.now times }
{
    for s in 0..weights.len() {
        weights[s] += times * others[s];
    }
}
