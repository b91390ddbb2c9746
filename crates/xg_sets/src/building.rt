//! The visitor that finds the sets, or the first break of perfect recall.
ghost use Rattle.std.specs.Prelude.{◌≡◌, ◌+◌, ◌<◌, Ok, OnOk, IfOk, IfErr};
ghost use Rattle.def_game_paths.specs.Coming.{visit_after};
ghost use Rattle.def_game_paths.specs.Recall.{HasPerfectRecall};
ghost use Rattle.def_sequence_form.specs.Sets.{sets_or_break};
ghost use Rattle.def_tree.specs.Rules.{IsGameTree};
ghost use Rattle.def_tree.specs.Tree.{node_count};
ghost use Rattle.xg_sets.specs.Fault.{IsFirstBreakOf, TellsBreakOf};
ghost use Rattle.xg_sets.specs.Entered.{AreAt, AreAtFirstChild, AreTablesOf, FindsBreak};
ghost use Rattle.xg_sets.specs.Movers.{HasMoverAround};
ghost use Rattle.xg_sets.specs.Walked.{HasEntered, HasLeft, IsBefore, MayComeNext};

use crate::movers::{Mover, Sequences, after_child, no_mover, step_of};
use crate::next_nodes::NextNodes;
use crate::sets::Sets;
use crate::table::FoundSets;
use std::alloc::{AllocError, Global};
use thiserror::Error;
use xg_tree::{Ancestors, Kind, Node, Tree, Visitor};

/// Why a tree has no sets.
#[derive(Debug, Drop, Error)]
pub enum RecallFault {
    #[error("at node {node} its player has made other choices than at node {earlier} of the same set")]
    NotRecall { node: u32, earlier: u32 },
    #[error("out of memory")]
    NoMemory,
}

impl From<AllocError> for RecallFault {
    ghost use Rattle.xg_sets.specs.declared.building.RecallFault.TheVariants.{NoMemory};

    ghost from_gives = { λ _ fault. fault ≡ NoMemory };

    fn from(_error: AllocError) -> RecallFault {
        RecallFault::NoMemory
    }
}

/// The sets of both players, or the first node at which its player has made other choices than at its set's first node.
pub fn build_sets(alloc: Global, tree: &Tree) -> Result<Sets, RecallFault>
    ensures sets { IfOk result (λ sets. sets_or_break tree.now ≡ Ok sets) }
    ensures broken { IfErr result (TellsBreakOf tree.now) }

    // In the words of the game.
    ensures recall { OnOk result (HasPerfectRecall tree.now) }
    ensures first_break { IfErr result (IsFirstBreakOf tree.now) }
{
    let mut visitor = SetVisitor::new(alloc, tree)?;
    tree.walk(&mut visitor);
    match visitor.fault {
        Some(fault) => Err(fault),
        None => {
            let FoundTables {
                one,
                two,
                next_nodes,
            } = visitor.building.tables;
            Ok(Sets::of(one, two, next_nodes))
        }
    }
}

// Notes each node as it is entered, up to the first fault.
#[derive(Drop)]
struct SetVisitor<'a> {
    building: Building<'a>,
    fault: Option<RecallFault>,
}

impl<'a> SetVisitor<'a> {
    // No node yet.
    fn new(alloc: Global, tree: &'a Tree) -> Result<SetVisitor<'a>, AllocError>
        ensures { IfOk result (IsBefore tree.now) }
    {
        let tables = FoundTables {
            one: FoundSets::with_capacity(alloc, tree.len())?,
            two: FoundSets::with_capacity(alloc, tree.len())?,
            next_nodes: NextNodes::with_capacity(alloc, tree.len())?,
        };
        let building = Building {
            tree,
            tables,
            innermost: no_mover(),
            outer: Ancestors::new(alloc),
        };
        Ok(SetVisitor {
            building,
            fault: None,
        })
    }
}

impl<'a> Visitor for SetVisitor<'a> {
    ghost use Rattle.xg_sets.specs.Walked.{Enters, Leaves, MayEnter, MayLeave};

    ghost may_enter = { MayEnter };

    ghost enters = { Enters };

    ghost may_leave = { MayLeave };

    ghost leaves = { Leaves };

    fn enter(&mut self, k: u32, node: Node) {
        if self.fault.is_none() {
            self.fault = self.building.enter(k, node).err();
        }
    }

    fn leave(&mut self, _k: u32) {
        if self.fault.is_none() {
            self.building.leave();
        }
    }
}

// The sets of the nodes so far, and the nodes that were entered and aren't left yet.
#[derive(Drop)]
struct Building<'a> {
    tree: &'a Tree,
    tables: FoundTables,
    innermost: Mover,
    outer: Ancestors<Mover>,
}

impl<'a> Building<'a> {
    // Notes node `k`, which comes next, and goes on below it.
    fn enter(&mut self, k: u32, node: Node) -> Result<(), RecallFault>
        requires { MayComeNext self.old.tree.now k self.old }
        ensures tree { self.new.tree.now ≡ self.old.tree.now }
        ensures ok { OnOk result (HasEntered self.old.tree.now k node self.old self.new) }
        ensures err { IfErr result (FindsBreak self.old.tree.now) }
    {
        let below = self.tables.note(self.tree, k - 1, self.innermost.next)?;
        self.outer.push(self.innermost)?;
        self.innermost = Mover {
            next: below,
            step: step_of(node.kind),
        };
        Ok(())
    }

    // Goes back to the node around the innermost, at its next child.
    fn leave(&mut self)
        requires { HasMoverAround self.old.outer }
        ensures tree { self.new.tree.now ≡ self.old.tree.now }
        ensures left { HasLeft self.old self.new }
    {
        let Some(around) = self.outer.pop() else {
            unreachable!()
        };
        self.innermost = after_child(around);
    }
}

// Both players' sets so far, and the next node of each node in its set.
#[derive(Drop)]
struct FoundTables {
    one: FoundSets,
    two: FoundSets,
    next_nodes: NextNodes,
}

impl FoundTables {
    // Notes the node after the first `k` with the sequences at it, and answers those at its first child.
    fn note(&mut self, tree: &Tree, k: u32, at: Sequences) -> Result<Sequences, RecallFault>
        requires rules { IsGameTree tree.now }
        requires there { k < node_count tree.now }
        requires tables { AreTablesOf tree.now k self.old.one self.old.two self.old.next_nodes }
        requires at { AreAt tree.now (visit_after tree.now k).path at }
        ensures tables { OnOk result (AreTablesOf tree.now (k + 1) self.new.one self.new.two self.new.next_nodes) }
        ensures below { IfOk result (AreAtFirstChild tree.now (visit_after tree.now k)) }
        ensures err { IfErr result (FindsBreak tree.now) }
    {
        let node = tree.node(k + 1);
        let below = match node.kind {
            Kind::One => Sequences {
                one: self.one.note(k + 1, node, at.one, &mut self.next_nodes)?,
                two: at.two,
            },
            Kind::Two => Sequences {
                one: at.one,
                two: self.two.note(k + 1, node, at.two, &mut self.next_nodes)?,
            },
            Kind::Chance | Kind::Leaf => at,
        };
        let Ok(()) = self.one.put(at.one) else {
            return Err(RecallFault::NoMemory);
        };
        let Ok(()) = self.two.put(at.two) else {
            return Err(RecallFault::NoMemory);
        };
        let Ok(()) = self.next_nodes.put() else {
            return Err(RecallFault::NoMemory);
        };
        Ok(below)
    }
}
