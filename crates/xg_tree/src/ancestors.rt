//! What a walk keeps of the nodes above the one that it stands at.
ghost use Rattle.std.specs.Prelude.{◌≡◌, [], ◌∷◌, IfSome, IsNone, OnErr, OnOk};

use std::alloc::{AllocError, Global};
use std::marker::Model;

/// One value for each ancestor of a node: the parent's comes first. A walk may keep one more behind them, for what is
/// around the root.
#[derive(Drop)]
pub struct Ancestors<T> {
    // the parent's stands last
    values: Vec<T>,
}

impl<T> Model for Ancestors<T> {
    ghost use Rattle.std.specs.Prelude.{List, reverse};

    ghost Value = { List T };

    ghost view = { λ a. reverse a.values.items };
}

impl<T: Drop> Ancestors<T> {
    /// Those of the root, which has none.
    pub fn new(alloc: Global) -> Ancestors<T>
        ensures { result ≡ [] }
    {
        Ancestors {
            values: Vec::new(alloc),
        }
    }

    /// Goes down to a child of a node, which is the parent then.
    pub fn push(&mut self, parent: T) -> Result<(), AllocError>
        ensures ok { OnOk result (self.new ≡ parent ∷ self.old) }
        ensures err { OnErr result (self.new ≡ self.old) }
    {
        self.values.push(parent)?;
        Ok(())
    }

    /// Goes up to the parent, and answers it. The root has none.
    pub fn pop(&mut self) -> Option<T>
        ensures some { IfSome result (λ parent. self.old ≡ parent ∷ self.new) }
        ensures none { IsNone result → (self.old ≡ []) × (self.new ≡ []) }
    {
        self.values.pop()
    }
}
