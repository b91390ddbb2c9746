//! How many children the nodes of each set have.
ghost use Rattle.std.specs.Prelude.{◌≡◌, ◌↔◌, [], IsOk, IsTrue, OnOk, OnErr};
ghost use Rattle.xg_tree.specs.Sizes.{FitsSizes, JoinsSizes, noted, with_size};

use def_tree::{Kind, MOST_ACTIONS, Node};
use std::alloc::{AllocError, Global};
use std::marker::Model;

// How many children the nodes of each set have, by the sets' kinds and numbers.
#[derive(Drop)]
pub(crate) struct Sizes {
    chance: Vec<u32>,
    one: Vec<u32>,
    two: Vec<u32>,
}

impl Model for Sizes {
    ghost use Rattle.xg_tree.specs.Sizes.{SizeLists};

    ghost Value = { SizeLists };

    ghost view = { λ s. record { chance = s.chance.items; one = s.one.items; two = s.two.items } };
}

impl Sizes {
    pub(crate) fn new(alloc: Global) -> Sizes
        ensures { result ≡ record { chance = []; one = []; two = [] } }
    {
        Sizes {
            chance: Vec::new(alloc),
            one: Vec::new(alloc),
            two: Vec::new(alloc),
        }
    }

    #[inline(always)]
    pub(crate) fn fits(&self, node: Node) -> bool
        ensures { IsTrue result ↔ FitsSizes self.now node }
    {
        match node.kind {
            Kind::Chance => joins(&self.chance, node.set, node.children),
            Kind::One => joins(&self.one, node.set, node.children),
            Kind::Two => joins(&self.two, node.set, node.children),
            Kind::Leaf => node.set == 0 && node.children == 0,
        }
    }

    // Notes the size of a set that is new.
    #[inline(always)]
    pub(crate) fn note(&mut self, node: Node) -> Result<(), AllocError>
        ensures ok { OnOk result (self.new ≡ with_size self.old node) }
        ensures err { OnErr result (self.new ≡ self.old) }
        ensures leaf { node.kind ≡ Kind.Leaf → IsOk result }
    {
        match node.kind {
            Kind::Chance => note(&mut self.chance, node.set, node.children),
            Kind::One => note(&mut self.one, node.set, node.children),
            Kind::Two => note(&mut self.two, node.set, node.children),
            Kind::Leaf => Ok(()),
        }
    }
}

#[inline(always)]
fn joins(sizes: &[u32], set: u32, children: u32) -> bool
    ensures { IsTrue result ↔ JoinsSizes sizes.now set children }
{
    if set == 0 || children == 0 || children > MOST_ACTIONS {
        return false;
    }
    let before = set as usize - 1;
    match sizes.get(before) {
        Some(size) => *size == children,
        None => before == sizes.len(),
    }
}

#[inline(always)]
fn note(sizes: &mut Vec<u32>, set: u32, children: u32) -> Result<(), AllocError>
    ensures ok { OnOk result (sizes.new.items ≡ noted sizes.old.items set children) }
    ensures err { OnErr result (sizes.new.items ≡ sizes.old.items) }
{
    if set as usize > sizes.len() {
        sizes.push(children)?;
    }
    Ok(())
}
