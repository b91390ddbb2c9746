//! The nodes on the path that a walk stands at, with the sequences at their children.
ghost use Rattle.std.specs.Prelude.{◌≡◌, ◌+◌, ◌^◌, ◌<◌};
ghost use Rattle.xg_sets.specs.Movers.{after, no_mover, step_of};

use def_tree::Kind;

/// The numbers of both players' sequences at a node.
#[derive(Clone, Copy)]
pub(crate) struct Sequences {
    pub(crate) one: u32,
    pub(crate) two: u32,
}

/// The sequences at the next child of a node on the path, and how far they go on from each child to the one after it:
/// by one for who moves at the node.
#[derive(Clone, Copy)]
pub(crate) struct Mover {
    pub(crate) next: Sequences,
    pub(crate) step: Sequences,
}

/// What is around the whole tree.
pub(crate) fn no_mover() -> Mover
    ensures { result ≡ no_mover }
{
    Mover {
        next: Sequences { one: 0, two: 0 },
        step: step_of(Kind::Chance),
    }
}

/// How far the sequences go on from each child of a node of this kind to the one after it.
pub(crate) fn step_of(kind: Kind) -> Sequences
    ensures { result ≡ step_of kind }
{
    match kind {
        Kind::One => Sequences { one: 1, two: 0 },
        Kind::Two => Sequences { one: 0, two: 1 },
        Kind::Chance | Kind::Leaf => Sequences { one: 0, two: 0 },
    }
}

/// The mover at its next child.
pub(crate) fn after_child(mover: Mover) -> Mover
    requires room_one { mover.next.one + mover.step.one < 2 ^ 32 }
    requires room_two { mover.next.two + mover.step.two < 2 ^ 32 }
    ensures { result ≡ after mover }
{
    let Mover { next, step } = mover;
    Mover {
        next: Sequences {
            one: next.one + step.one,
            two: next.two + step.two,
        },
        step,
    }
}
