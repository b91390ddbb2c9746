//! The worths of sequences, in 64 or 128 bits.
ghost use Rattle.std.specs.Prelude.{◌≡◌, ℕ, ◌<◌, ℤ, pos, ◌+ℤ◌, FitsSigned, length, map};
ghost use Rattle.std.specs.Int.{Width, int_max, int_wrap};
ghost use Rattle.def_plan.specs.FormRows.{amount_of};

/// What a sequence is worth, in as many bits as the worths of a round need.
pub(crate) trait Worth: Copy {
    // the worth itself, and how many bits it has
    ghost amount: { Self → ℤ };

    ghost width: { Width };

    fn wide(&self) -> i128
        ensures { result ≡ amount self.now };

    // The parts of a worth may pass its bits on the way, and the worth itself doesn't.
    fn plus(&self, value: i128) -> Self
        requires { FitsSigned width value }
        ensures { amount result ≡ int_wrap width (amount self.now +ℤ value) };

    // 0 in place of a worth below 0
    fn or_zero(&self) -> Self
        ensures { amount result ≡ int_max (pos 0) (amount self.now) };
}

impl Worth for i64 {
    ghost use Rattle.std.specs.Int.{w64};

    ghost amount = { λ worth. worth };

    ghost width = { w64 };

    fn wide(&self) -> i128 {
        *self as i128
    }

    fn plus(&self, value: i128) -> i64 {
        self.wrapping_add(value as i64)
    }

    fn or_zero(&self) -> i64 {
        (*self).max(0)
    }
}

impl Worth for i128 {
    ghost use Rattle.std.specs.Int.{w128};

    ghost amount = { λ worth. worth };

    ghost width = { w128 };

    fn wide(&self) -> i128 {
        *self
    }

    fn plus(&self, value: i128) -> i128 {
        self.wrapping_add(value)
    }

    fn or_zero(&self) -> i128 {
        (*self).max(0)
    }
}

/// The worth of a sequence.
pub(crate) fn worth_at<W: Worth>(worths: &[W], s: usize) -> i128
    requires { s < length worths.now }
    ensures { result ≡ amount_of (map W.amount worths.now) s }
{
    worths[s].wide()
}

/// Adds a value to the worth of a sequence.
pub(crate) fn add_worth<W: Worth>(worths: &mut [W], s: usize, value: i128)
    requires inside { s < length worths.old }
    requires fits { FitsSigned W.width value }
    ensures count { length worths.new ≡ length worths.old }
    ensures here { amount_of (map W.amount worths.new) s
        ≡ int_wrap W.width (amount_of (map W.amount worths.old) s +ℤ value) }
    ensures others { (t : ℕ) → (t ≡ s → ⊥)
        → amount_of (map W.amount worths.new) t ≡ amount_of (map W.amount worths.old) t }
{
    worths[s] = worths[s].plus(value);
}
