//! A leaf in a group, in 4, 8 or more bytes.
ghost use Rattle.std.specs.Prelude.{◌≡◌, ◌↔◌, IsTrue};
ghost use Rattle.xg_jobs.specs.Groups.{GroupLeaf};

/// A leaf in the group of its sequence of one player, with the sequence of the other one.
pub trait GroupEntry: Copy {
    /// The leaf.
    ghost leaf: { Self → GroupLeaf };

    /// Which leaves there is room for.
    ghost has_room: { GroupLeaf → Type 0 };

    /// Whether there is room for a leaf.
    fn fits(other: u32, weight: i64) -> bool
        ensures { IsTrue result ↔ has_room (record { other = other; weight = weight }) };

    /// The entry of a leaf.
    fn new(other: u32, weight: i64) -> Self
        requires { has_room (record { other = other; weight = weight }) }
        ensures { leaf result ≡ record { other = other; weight = weight } };

    /// The leaf's sequence of the other player.
    fn other(&self) -> u32
        ensures { result ≡ (leaf self.now).other };

    /// The leaf's weight.
    fn weight(&self) -> i64
        ensures { result ≡ (leaf self.now).weight };
}

/// Entries in which each weight has room.
#[derive(Drop)]
pub enum GroupEntries {
    Tiny(Vec<TinyEntry>),
    Small(Vec<SmallEntry>),
    Wide(Vec<WideEntry>),
}

/// An entry of 4 bytes, which most games' leaves fit.
#[derive(Clone, Copy)]
pub struct TinyEntry {
    other: u16,
    weight: i16,
}

impl GroupEntry for TinyEntry {
    ghost use Rattle.xg_jobs.specs.Groups.{IsTiny};

    ghost leaf = { λ e. record { other = e.other; weight = e.weight } };

    ghost has_room = { λ leaf. IsTiny leaf };

    fn fits(other: u32, weight: i64) -> bool {
        other < 1 << 16 && i16::try_from(weight).is_ok()
    }

    fn new(other: u32, weight: i64) -> TinyEntry {
        TinyEntry {
            other: other as u16,
            weight: weight as i16,
        }
    }

    fn other(&self) -> u32 {
        self.other as u32
    }

    fn weight(&self) -> i64 {
        self.weight as i64
    }
}

/// An entry of 8 bytes, which most games' weights fit.
#[derive(Clone, Copy)]
pub struct SmallEntry {
    other: u32,
    weight: i32,
}

impl GroupEntry for SmallEntry {
    ghost use Rattle.xg_jobs.specs.Groups.{IsSmall};

    ghost leaf = { λ e. record { other = e.other; weight = e.weight } };

    ghost has_room = { λ leaf. IsSmall leaf };

    fn fits(_other: u32, weight: i64) -> bool {
        i32::try_from(weight).is_ok()
    }

    fn new(other: u32, weight: i64) -> SmallEntry {
        SmallEntry {
            other,
            weight: weight as i32,
        }
    }

    fn other(&self) -> u32 {
        self.other
    }

    fn weight(&self) -> i64 {
        self.weight as i64
    }
}

/// An entry for any weight.
#[derive(Clone, Copy)]
pub struct WideEntry {
    pub(crate) other: u32,
    pub(crate) weight: i64,
}

impl GroupEntry for WideEntry {
    ghost leaf = { λ e. record { other = e.other; weight = e.weight } };

    ghost has_room = { λ _. Unit {0} };

    fn fits(_other: u32, _weight: i64) -> bool {
        true
    }

    fn new(other: u32, weight: i64) -> WideEntry {
        WideEntry { other, weight }
    }

    fn other(&self) -> u32 {
        self.other
    }

    fn weight(&self) -> i64 {
        self.weight
    }
}
