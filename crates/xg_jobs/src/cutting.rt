//! How the tree is cut into jobs.
ghost use Rattle.std.specs.Prelude.{◌≡◌, ◌+◌, ◌++◌, ◌≤◌, ◌&&◌, List, length, map, false, nat_le, IfOk, OnOk};
ghost use Rattle.def_history.specs.Jobs.{jobs_of, most_jobs, pass};
ghost use Rattle.def_history.specs.Ranges.{job_ranges};
ghost use Rattle.def_tree.specs.declared.Kind.TheVariants.{Chance};
ghost use Rattle.def_tree.specs.Links.{children_of};
ghost use Rattle.def_tree.specs.Rules.{is_same_kind};
ghost use Rattle.def_tree.specs.Tree.{Forest, node_count};
ghost use Rattle.xg_jobs.specs.Cutting.{AreJobs, leaf_count_before};
ghost use Rattle.xg_jobs.specs.Ranges.{KeepsRanges, range_of};

use crate::table::LeafRange;
use def_history::jobs::{MOST_JOBS, MOST_PASSES};
use std::alloc::{AllocError, Global};
use xg_tree::{Kind, Node, Tree, is_leaf};

/// The leaves of each job.
pub(crate) fn ranges_of(alloc: Global, tree: &Tree) -> Result<Vec<LeafRange>, AllocError>
    ensures ranges { IfOk result (λ ranges. map range_of ranges.items ≡ job_ranges tree.now) }
    ensures kept { IfOk result (λ ranges. KeepsRanges ranges.items) }
{
    let end = tree.len() + 1;
    let jobs = job_nodes(alloc, tree)?;
    let mut ranges = Vec::new(alloc);
    let mut first = 0;
    for i in 0..jobs.len() {
        let next = jobs.get(i + 1).copied().unwrap_or(end);
        let count = leaves_between(tree, jobs[i], next);
        ranges.push(LeafRange { first, count })?;
        first += count;
    }
    Ok(ranges)
}

// How many nodes from one up to before another are leaves.
fn leaves_between(tree: &Tree, from: u32, to: u32) -> u32
    requires from_one { 1 ≤ from }
    requires ordered { from ≤ to }
    requires there { to ≤ node_count tree.now + 1 }
    ensures { leaf_count_before tree.now from + result ≡ leaf_count_before tree.now to }
{
    let mut leaves = 0;
    for k in from..to {
        if is_leaf(tree.node(k)) {
            leaves += 1;
        }
    }
    leaves
}

// The top node of each job.
fn job_nodes(alloc: Global, tree: &Tree) -> Result<Vec<u32>, AllocError>
    ensures { IfOk result (λ jobs. AreJobs tree.now jobs.items (jobs_of tree.now)) }
{
    // at first the whole tree, which is one, is a job
    tree.facts();
    let mut jobs = vec![in alloc; 1; 1]?;
    for _ in 0..MOST_PASSES {
        let after = make_pass(alloc, tree, &jobs)?;
        jobs = after.jobs;
        if !after.cut {
            break;
        }
    }
    Ok(jobs)
}

// The jobs after a pass, and whether one of them gave way.
#[derive(Drop)]
struct CutJobs {
    jobs: Vec<u32>,
    cut: bool,
}

// One pass over the jobs.
fn make_pass(alloc: Global, tree: &Tree, jobs: &[u32]) -> Result<CutJobs, AllocError>
    requires few { length jobs.now ≤ most_jobs }
    requires jobs { (jobs_now : List Forest) × AreJobs tree.now jobs.now jobs_now }
    ensures jobs { IfOk result (λ after. (jobs_now : List Forest) → AreJobs tree.now jobs.now jobs_now
        → AreJobs tree.now after.jobs.items (pass most_jobs jobs_now)) }
    ensures few { IfOk result (λ after. length after.jobs.items ≤ most_jobs) }
    ensures same { IfOk result (λ after. after.cut ≡ false → (jobs_now : List Forest)
        → AreJobs tree.now jobs.now jobs_now → pass most_jobs jobs_now ≡ jobs_now) }
{
    let mut after = Vec::new(alloc);
    let mut count = jobs.len();
    let mut cut = false;
    for job in jobs {
        let top = tree.node(*job);
        let then = count - 1 + top.children as usize;
        if is_cut(top, then) {
            push_children(tree, *job, &mut after)?;
            count = then;
            cut = true;
        } else {
            after.push(*job)?;
        }
    }
    Ok(CutJobs { jobs: after, cut })
}

// Whether a job with this top node gives way, where there are then so many jobs.
fn is_cut(top: Node, then: usize) -> bool
    ensures { result ≡ (is_same_kind Chance top.kind && nat_le then most_jobs) }
{
    matches!(top.kind, Kind::Chance) && then <= MOST_JOBS
}

// Puts the children of node `k`.
fn push_children(tree: &Tree, k: u32, jobs: &mut Vec<u32>) -> Result<(), AllocError>
    requires from_one { 1 ≤ k }
    requires there { k ≤ node_count tree.now }
    ensures { OnOk result (jobs.new.items ≡ jobs.old.items ++ children_of tree.now k) }
{
    // a tree's rules, by which its links lead to all children
    tree.facts();
    let mut next = tree.first_child(k);
    while let Some(child) = next {
        jobs.push(child)?;
        next = tree.next_sibling(child);
    }
    Ok(())
}
