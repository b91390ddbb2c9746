//! The rows of a form.
ghost use Rattle.std.specs.Prelude.{◌≡◌, ◌<◌, length, replicate, pos, slice_set, IfOk};
ghost use Rattle.def_plan.specs.Form.{sequence_count};
ghost use Rattle.xg_jobs.specs.Rows.{all_rows};

use def_tree::Player;
use std::alloc::{AllocError, Global};
use std::marker::Model;
use xg_seq::SeqForm;

/// The amounts at the rows of a form, in player one's payoff.
///
/// Row `s` is player one's sequence `s`, and player two's sequences come behind them.
#[derive(Drop)]
pub struct Rows {
    pub(crate) one: Vec<i128>,
    pub(crate) two: Vec<i128>,
}

impl Model for Rows {
    ghost use Rattle.xg_jobs.specs.Rows.{Amounts};

    ghost Value = { Amounts };

    ghost view = { λ r. record { one = r.one.items; two = r.two.items } };
}

impl Rows {
    /// The amount 0 at each row of the form.
    pub fn new(alloc: Global, form: &SeqForm) -> Result<Rows, AllocError>
        ensures one { IfOk result (λ rows. rows.one ≡ replicate (sequence_count form.now.sets_one) (pos 0)) }
        ensures two { IfOk result (λ rows. rows.two ≡ replicate (sequence_count form.now.sets_two) (pos 0)) }
    {
        Ok(Rows {
            one: vec![in alloc; 0; form.sequence_count(Player::One) as usize]?,
            two: vec![in alloc; 0; form.sequence_count(Player::Two) as usize]?,
        })
    }

    /// Puts an amount at a row.
    pub fn put(&mut self, row: u32, amount: i128)
        requires { row < length (all_rows self.old) }
        ensures rows { all_rows self.new ≡ slice_set (all_rows self.old) row amount }
        ensures count { length self.new.one ≡ length self.old.one }
    {
        let row = row as usize;
        let count = self.one.len();
        if row < count {
            self.one[row] = amount;
        } else {
            self.two[row - count] = amount;
        }
    }

    /// Puts the amounts of rows of 64 bits. Takes no memory.
    pub fn widen(&mut self, small: &SmallRows)
        requires one { length self.old.one ≡ length small.now.one }
        requires two { length self.old.two ≡ length small.now.two }
        ensures { self.new ≡ small.now }
    {
        widen_into(&small.one, &mut self.one);
        widen_into(&small.two, &mut self.two);
    }

    /// Player one's amounts, by sequence.
    pub fn one(&self) -> &[i128]
        ensures { result.now ≡ self.now.one }
    {
        &self.one
    }

    /// Player two's amounts, by sequence.
    pub fn two(&self) -> &[i128]
        ensures { result.now ≡ self.now.two }
    {
        &self.two
    }
}

fn widen_into(small: &[i64], amounts: &mut [i128])
    requires { length amounts.old ≡ length small.now }
    ensures { amounts.new ≡ small.now }
{
    for s in 0..amounts.len() {
        amounts[s] = small[s] as i128;
    }
}

/// The amounts at the rows of a form in 64 bits, in player one's payoff.
#[derive(Drop)]
pub struct SmallRows {
    pub(crate) one: Vec<i64>,
    pub(crate) two: Vec<i64>,
}

impl Model for SmallRows {
    ghost use Rattle.xg_jobs.specs.Rows.{Amounts};

    ghost Value = { Amounts };

    ghost view = { λ r. record { one = r.one.items; two = r.two.items } };
}

impl SmallRows {
    /// The amount 0 at each row of the form.
    pub fn new(alloc: Global, form: &SeqForm) -> Result<SmallRows, AllocError>
        ensures one { IfOk result (λ rows. rows.one ≡ replicate (sequence_count form.now.sets_one) (pos 0)) }
        ensures two { IfOk result (λ rows. rows.two ≡ replicate (sequence_count form.now.sets_two) (pos 0)) }
    {
        Ok(SmallRows {
            one: vec![in alloc; 0; form.sequence_count(Player::One) as usize]?,
            two: vec![in alloc; 0; form.sequence_count(Player::Two) as usize]?,
        })
    }

    /// Player one's amounts, by sequence.
    pub fn one(&self) -> &[i64]
        ensures { result.now ≡ self.now.one }
    {
        &self.one
    }

    /// Player two's amounts, by sequence.
    pub fn two(&self) -> &[i64]
        ensures { result.now ≡ self.now.two }
    {
        &self.two
    }
}
