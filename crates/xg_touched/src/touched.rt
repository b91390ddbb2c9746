//! The rows of a job, and its packet.
ghost use Rattle.std.specs.Prelude.{◌≡◌, ◌+◌, ◌<◌, ◌≤◌, length, All, IfOk, slice_index};
ghost use Rattle.def_sums.specs.Limits.{most_root};
ghost use Rattle.def_tree.specs.Opponent.{opponent};
ghost use Rattle.def_plan.specs.Form.{player_sets, sequence_count};
ghost use Rattle.def_plan.specs.Payoff.{leaf_sum};
ghost use Rattle.def_plan.specs.FormRows.{row_count};
ghost use Rattle.def_history.specs.JobPackets.{packet_of};
ghost use Rattle.xg_rowcore.specs.Chains.{usual_stripes};
ghost use Rattle.xg_rowcore.specs.Packets.{entries_at_rows, zeros_at};
ghost use Rattle.xg_touched.specs.Filling.{amount_upto, entries_upto};
ghost use Rattle.def_history.specs.JobRows.{job_leaves};
ghost use Rattle.xg_touched.specs.Touched.{IsRowOf, job_rows, sequence_of_row};

use crate::building::{first_leaves_of, rows_of};
use crate::summing::thread_sum;
use def_tree::Player;
use std::alloc::{AllocError, Global};
use std::marker::Model;
use xg_rowcore::{LinkedRows, Packet};
use xg_seq::SeqForm;

/// The rows that a job's leaves have, in rising order, and for each row the first leaf of the job that has it.
#[derive(Drop)]
pub struct TouchedRows {
    leaves_before: u32,
    count: u32,
    rows: LinkedRows,
    first_leaves: Vec<u32>,
}

impl Model for TouchedRows {
    ghost use Rattle.xg_touched.specs.Touched.{JobRows};

    ghost Value = { JobRows };

    ghost view = { λ t. record {
      range = record { first = t.leaves_before; count = t.count };
      rows = t.rows;
      first_leaves = t.first_leaves.items;
    } };
}

impl TouchedRows {
    /// The rows of a job that has so many leaves, behind so many others. The places are room for a number at each row
    /// of the form, whatever stands there.
    pub fn build(
        alloc: Global,
        form: &SeqForm,
        first: u32,
        count: u32,
        places: &mut [u32],
    ) -> Result<TouchedRows, AllocError>
        requires leaves { first + count ≤ length form.now.leaves }
        requires room { row_count form.now ≤ length places.old }
        ensures { IfOk result (λ touched. touched ≡ job_rows form.now (record { first = first; count = count })) }
    {
        // the limits of a form's sequences
        form.facts();
        let rows = rows_of(alloc, form, first, count)?;
        let first_leaves = first_leaves_of(alloc, form, first, count, &rows, places)?;
        let rows = LinkedRows::new(alloc, rows)?;
        Ok(TouchedRows {
            leaves_before: first,
            count,
            rows,
            first_leaves,
        })
    }

    /// How many rows there are.
    pub fn len(&self) -> usize
        ensures { result ≡ length self.now.rows }
    {
        self.rows.rows().len()
    }

    /// Makes the packet of the job from a number for each sequence.
    pub fn packet_into(&self, job: u32, form: &SeqForm, one: &[u64], two: &[u64], into: &mut Packet)
        requires leaves { self.now.range.first + self.now.range.count ≤ length form.now.leaves }
        requires rows { self.now ≡ job_rows form.now self.now.range }
        requires count_one { length one.now ≡ sequence_count form.now.sets_one }
        requires count_two { length two.now ≡ sequence_count form.now.sets_two }
        requires small_one { All (λ n. n ≤ most_root) one.now }
        requires small_two { All (λ n. n ≤ most_root) two.now }
        requires room { length self.now.rows ≤ into.old.entries.room }
        ensures job { into.new.job ≡ job }
        ensures entries { into.new.entries ≡ record {
          list = packet_of form.now one.now two.now self.now.range;
          room = into.old.entries.room;
          chained = usual_stripes;
        } }
    {
        into.start_with(job, &self.rows);
        let ones = self.put_rows_of_one(form, one, two, into);
        self.put_rows_of_two(ones, form, one, two, into);
    }

    // Puts player one's rows, which come first. Answers how many they are.
    fn put_rows_of_one(&self, form: &SeqForm, one: &[u64], two: &[u64], into: &mut Packet) -> usize
        requires leaves { self.now.range.first + self.now.range.count ≤ length form.now.leaves }
        requires rows { self.now ≡ job_rows form.now self.now.range }
        requires count_one { length one.now ≡ sequence_count form.now.sets_one }
        requires count_two { length two.now ≡ sequence_count form.now.sets_two }
        requires small_one { All (λ n. n ≤ most_root) one.now }
        requires small_two { All (λ n. n ≤ most_root) two.now }
        requires zeros { into.old.entries.list ≡ zeros_at self.now.rows }
        ensures ones { result ≤ length self.now.rows }
        ensures others { result < length self.now.rows
            → sequence_count form.now.sets_one ≤ slice_index self.now.rows result }
        ensures job { into.new.job ≡ into.old.job }
        ensures entries { let amount = amount_upto form.now one.now two.now self.now.range.first self.now.range.count in
            into.new.entries ≡ record {
              list = entries_upto amount result self.now.rows;
              room = into.old.entries.room;
              chained = into.old.entries.chained;
            } }
    {
        let count = form.sequence_count(Player::One);
        let rows = self.rows.rows();
        for i in 0..rows.len() {
            if rows[i] >= count {
                return i;
            }
            into.put(i, self.amount_at(i, form, Player::One, two));
        }
        rows.len()
    }

    // Puts the rows from a place on, which are player two's.
    fn put_rows_of_two(
        &self,
        ones: usize,
        form: &SeqForm,
        one: &[u64],
        two: &[u64],
        into: &mut Packet,
    )
        requires leaves { self.now.range.first + self.now.range.count ≤ length form.now.leaves }
        requires rows { self.now ≡ job_rows form.now self.now.range }
        requires count_one { length one.now ≡ sequence_count form.now.sets_one }
        requires count_two { length two.now ≡ sequence_count form.now.sets_two }
        requires small_one { All (λ n. n ≤ most_root) one.now }
        requires small_two { All (λ n. n ≤ most_root) two.now }
        requires ones { ones ≤ length self.now.rows }
        requires others { ones < length self.now.rows
            → sequence_count form.now.sets_one ≤ slice_index self.now.rows ones }
        requires known { let amount = amount_upto form.now one.now two.now self.now.range.first self.now.range.count in
            into.old.entries.list ≡ entries_upto amount ones self.now.rows }
        ensures job { into.new.job ≡ into.old.job }
        ensures entries { let amount = amount_upto form.now one.now two.now self.now.range.first self.now.range.count in
            into.new.entries ≡ record {
              list = entries_at_rows amount self.now.rows;
              room = into.old.entries.room;
              chained = into.old.entries.chained;
            } }
    {
        for i in ones..self.len() {
            into.put(i, self.amount_at(i, form, Player::Two, one));
        }
    }

    // What the job's leaves bring to a row of a player. Each caller is for one player.
    #[inline(always)]
    fn amount_at(&self, i: usize, form: &SeqForm, player: Player, against: &[u64]) -> i128
        requires there { i < length self.now.rows }
        requires row { IsRowOf player form.now (slice_index self.now.rows i) }
        requires leaves { self.now.range.first + self.now.range.count ≤ length form.now.leaves }
        requires rows { self.now ≡ job_rows form.now self.now.range }
        requires count { length against.now ≡ sequence_count (player_sets form.now (opponent player)) }
        requires small { All (λ n. n ≤ most_root) against.now }
        ensures { let sequence = sequence_of_row player form.now (slice_index self.now.rows i) in
            result ≡ leaf_sum player (job_leaves form.now self.now.range) against.now sequence }
    {
        // the limit of a form's leaves
        form.facts();
        let leaf = self.first_leaves[i];
        let last = self.leaves_before + self.count;
        thread_sum(form, player, leaf, last, against)
    }
}
