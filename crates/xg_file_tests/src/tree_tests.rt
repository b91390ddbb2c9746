//! Small trees and a wide one, as they are built and walked.
ghost use Rattle.def_tree.specs.declared.Node.{Node};

use std::mem::size_of;
use std::process::Abort;
use std::test::Fail;
use xg_test_data::nodes::is_same_node;
use xg_tree::{Builder, Kind, Node, PushFault, Tree, Visitor};

const ROOM: usize = 32;

// Records the first steps of a walk: `k` as node `k` is entered, and `1000 + k` as it is left.
#[derive(Drop)]
struct Recorder {
    steps: [u32; 32],
    count: usize,
    entered: u64,
    left: u64,
}

impl Recorder {
    fn new() -> Recorder {
        Recorder {
            steps: [0; 32],
            count: 0,
            entered: 0,
            left: 0,
        }
    }

    fn record(&mut self, step: u32) {
        if self.count < ROOM {
            self.steps[self.count] = step;
            self.count += 1;
        }
    }

    /// Whether just these steps were recorded.
    fn has(&self, steps: &[u32]) -> bool {
        self.count == steps.len() && self.steps.get(..self.count) == Some(steps)
    }
}

impl Visitor for Recorder {
    ghost may_enter = { λ _ _ _. Unit {0} };

    ghost enters = { λ _ _ _ _. Unit {0} };

    ghost may_leave = { λ _ _. Unit {0} };

    ghost leaves = { λ _ _ _. Unit {0} };

    fn enter(&mut self, k: u32, _node: Node) {
        self.record(k);
        self.entered = self.entered.wrapping_add(1);
    }

    fn leave(&mut self, k: u32) {
        self.record(k.wrapping_add(1000));
        self.left = self.left.wrapping_add(1);
    }
}

/// A node by its kind, its set and the number of its children.
type NodeParts = (Kind, u32, u32);

const LEAF: NodeParts = (Kind::Leaf, 0, 0);

fn node(row: NodeParts) -> Node {
    let (kind, set, children) = row;
    Node {
        kind,
        set,
        outcome: 0,
        children,
    }
}

fn put(rt: &impl Abort, builder: &mut Builder, row: NodeParts) -> Result<(), PushFault> {
    let next = node(row);
    assert!(rt; !builder.is_complete());
    assert!(rt; builder.fits(next));
    builder.push(next)
}

fn put_all(rt: &impl Abort, builder: &mut Builder, rows: &[NodeParts]) -> Result<(), PushFault> {
    for row in rows {
        put(rt, builder, *row)?;
    }
    Ok(())
}

fn tree_of(rt: &impl Abort, builder: Builder) -> Tree {
    assert!(rt; builder.is_complete());
    builder.finish()
}

fn recorded(tree: &Tree) -> Recorder {
    let mut recorder = Recorder::new();
    tree.walk(&mut recorder);
    recorder
}

fn crosses_threads<T: Send + Sync>() {}

static SMALL: [NodeParts; 9] = [
    (Kind::Chance, 1, 3),
    (Kind::One, 1, 2),
    LEAF,
    (Kind::Two, 1, 1),
    LEAF,
    LEAF,
    (Kind::One, 1, 2),
    LEAF,
    LEAF,
];

static SMALL_STEPS: [u32; 18] = [
    1, 2, 3, 1003, 4, 5, 1005, 1004, 1002, 6, 1006, 7, 8, 1008, 9, 1009, 1007, 1001,
];

#[test]
fn walks_through_a_small_tree(rt: HostRuntime) -> Result<(), Fail> {
    let mut builder = Builder::new(rt.alloc());
    put_all(&rt, &mut builder, &SMALL)?;
    let tree = tree_of(&rt, builder);
    assert!(rt;
        tree.len() == 9
            && tree.leaves() == 5
            && is_same_node(tree.node(4), node((Kind::Two, 1, 1)))
            && recorded(&tree).has(&SMALL_STEPS)
    );
    crosses_threads::<Tree>();
    crosses_threads::<Node>();
    Ok(())
}

/// A node with 1,024 children, each with four leaves.
fn put_wide(rt: &impl Abort, builder: &mut Builder) -> Result<(), PushFault> {
    put(rt, builder, (Kind::One, 1, 1024))?;
    for _ in 0..1024 {
        put_all(rt, builder, &[(Kind::Two, 1, 4), LEAF, LEAF, LEAF, LEAF])?;
    }
    Ok(())
}

#[test]
fn walks_through_a_wide_tree(rt: HostRuntime) -> Result<(), Fail> {
    let mut builder = Builder::new(rt.alloc());
    put_wide(&rt, &mut builder)?;
    let tree = tree_of(&rt, builder);
    let recorder = recorded(&tree);
    assert!(rt;
        tree.len() == 5121
            && tree.leaves() == 4096
            && recorder.entered == 5121
            && recorder.left == 5121
            && size_of::<Node>() == 16
    );
    Ok(())
}

/// Nodes, and whether each fits below the two that were put.
static JUDGED: [(NodeParts, bool); 13] = [
    ((Kind::One, 1, 2), true),
    ((Kind::One, 1, 3), false),
    ((Kind::One, 2, 1024), true),
    ((Kind::One, 2, 1025), false),
    ((Kind::One, 2, 0), false),
    ((Kind::One, 3, 2), false),
    ((Kind::One, 0, 2), false),
    ((Kind::Two, 1, 3), true),
    ((Kind::Two, 1, 2), false),
    ((Kind::Chance, 1, 7), true),
    ((Kind::Chance, 2, 7), false),
    ((Kind::Leaf, 1, 0), false),
    ((Kind::Leaf, 0, 1), false),
];

/// The place of the first row that is judged otherwise.
fn first_misjudged(builder: &Builder, rows: &[(NodeParts, bool)]) -> Option<usize> {
    for (place, (row, fits)) in rows.iter().enumerate() {
        if builder.fits(node(*row)) != *fits {
            return Some(place);
        }
    }
    None
}

#[test]
fn judges_nodes(rt: HostRuntime) -> Result<(), Fail> {
    let mut builder = Builder::new(rt.alloc());
    put_all(&rt, &mut builder, &[(Kind::One, 1, 2), (Kind::Two, 1, 3)])?;
    let far = Node {
        kind: Kind::Leaf,
        set: 0,
        outcome: u32::MAX,
        children: 0,
    };
    assert_eq!(rt; first_misjudged(&builder, &JUDGED), None);
    assert!(rt; builder.fits(far));
    Ok(())
}
