//! The visitor of a walk.
ghost use Rattle.std.specs.Prelude.{ℕ};
ghost use Rattle.def_tree.specs.declared.Node.{Node};

use def_tree::Node;

/// What a walk through a tree calls: once as a node is entered, and once as it is left.
///
/// Nodes are numbered from 1 in prefix order.
pub trait Visitor {
    /// What entering a node asks of the visitor as it is.
    ghost may_enter: { Self → ℕ → Node → Type 0 };

    /// What entering a node can make of it.
    ghost enters: { Self → ℕ → Node → Self → Type 0 };

    /// What leaving a node asks of the visitor as it is.
    ghost may_leave: { Self → ℕ → Type 0 };

    /// What leaving a node can make of it.
    ghost leaves: { Self → ℕ → Self → Type 0 };

    /// Node `k` is entered, before its children.
    fn enter(&mut self, k: u32, node: Node)
        requires { may_enter self.old k node }
        ensures { enters self.old k node self.new };

    /// Node `k` is left, after the last of its children.
    fn leave(&mut self, k: u32)
        requires { may_leave self.old k }
        ensures { leaves self.old k self.new };
}
