//! The amount at a row, in 64 or 128 bits.
ghost use Rattle.std.specs.Prelude.{◌≡◌, ℕ, ◌*◌, ◌^◌, ◌<◌, ℤ, pos, ◌+ℤ◌, ◌*ℤ◌, unsigned_abs, length, map};
ghost use Rattle.def_sums.specs.Limits.{past_number};
ghost use Rattle.def_plan.specs.FormRows.{amount_of};

/// The amount at a row, in as many bits as the sums of a form need.
pub trait Row: Copy {
    /// The amount.
    ghost amount: { Self → ℤ };

    /// One past the greatest size that there is room for.
    ghost limit: { ℕ };

    /// The amount 0.
    fn zero() -> Self
        ensures { amount result ≡ pos 0 };

    /// The amount with a product added.
    fn plus_product(&self, w: i64, n: u64) -> Self
        requires small { n < past_number }
        requires product { unsigned_abs w * n < limit }
        requires room { unsigned_abs (amount self.now +ℤ (w *ℤ pos n)) < limit }
        ensures { amount result ≡ amount self.now +ℤ (w *ℤ pos n) };

    /// The amount with another one added.
    fn plus_row(&self, other: &Self) -> Self
        requires { unsigned_abs (amount self.now +ℤ amount other.now) < limit }
        ensures { amount result ≡ amount self.now +ℤ amount other.now };
}

impl Row for i64 {
    ghost amount = { λ row. row };

    ghost limit = { 2 ^ 63 };

    fn zero() -> i64 {
        0
    }

    fn plus_product(&self, w: i64, n: u64) -> i64 {
        plus(*self, w * n as i64)
    }

    fn plus_row(&self, other: &i64) -> i64 {
        plus(*self, *other)
    }
}

impl Row for i128 {
    ghost amount = { λ row. row };

    ghost limit = { 2 ^ 127 };

    fn zero() -> i128 {
        0
    }

    fn plus_product(&self, w: i64, n: u64) -> i128 {
        plus_wide(*self, times_wide(w, n))
    }

    fn plus_row(&self, other: &i128) -> i128 {
        plus_wide(*self, *other)
    }
}

fn plus(a: i64, b: i64) -> i64
    requires { unsigned_abs (a +ℤ b) < 2 ^ 63 }
    ensures { result ≡ a +ℤ b }
{
    a + b
}

fn times_wide(w: i64, n: u64) -> i128
    requires { n < past_number }
    ensures { result ≡ w *ℤ pos n }
{
    // a product of two signed words is one instruction
    w as i128 * (n as i64) as i128
}

fn plus_wide(a: i128, b: i128) -> i128
    requires { unsigned_abs (a +ℤ b) < 2 ^ 127 }
    ensures { result ≡ a +ℤ b }
{
    a + b
}

/// Adds a product to a row.
pub fn add_product<R: Row>(rows: &mut [R], row: usize, w: i64, n: u64)
    requires inside { row < length rows.old }
    requires small { n < past_number }
    requires product { unsigned_abs w * n < R.limit }
    requires room { unsigned_abs (amount_of (map R.amount rows.old) row +ℤ (w *ℤ pos n)) < R.limit }
    ensures count { length rows.new ≡ length rows.old }
    ensures here { amount_of (map R.amount rows.new) row
        ≡ amount_of (map R.amount rows.old) row +ℤ (w *ℤ pos n) }
    ensures others { (b : ℕ) → (b ≡ row → ⊥)
        → amount_of (map R.amount rows.new) b ≡ amount_of (map R.amount rows.old) b }
{
    rows[row] = rows[row].plus_product(w, n);
}

/// Puts an amount at a row.
pub fn put<R: Row>(rows: &mut [R], row: usize, amount: R)
    requires inside { row < length rows.old }
    ensures count { length rows.new ≡ length rows.old }
    ensures here { amount_of (map R.amount rows.new) row ≡ R.amount amount }
    ensures others { (b : ℕ) → (b ≡ row → ⊥)
        → amount_of (map R.amount rows.new) b ≡ amount_of (map R.amount rows.old) b }
{
    rows[row] = amount;
}

/// Adds an amount to a row.
pub(crate) fn add_row<R: Row>(rows: &mut [R], row: usize, amount: R)
    requires inside { row < length rows.old }
    requires room { unsigned_abs (amount_of (map R.amount rows.old) row +ℤ R.amount amount) < R.limit }
    ensures count { length rows.new ≡ length rows.old }
    ensures here { amount_of (map R.amount rows.new) row
        ≡ amount_of (map R.amount rows.old) row +ℤ R.amount amount }
    ensures others { (b : ℕ) → (b ≡ row → ⊥)
        → amount_of (map R.amount rows.new) b ≡ amount_of (map R.amount rows.old) b }
{
    rows[row] = rows[row].plus_row(&amount);
}
