//! The evaluation of the sums of plans after a round.
ghost use Rattle.std.specs.Prelude.{◌≡◌, ◌<◌, IfOk, IsTrue, OnOk, length};
ghost use Rattle.def_reply.specs.Offers.{new_board, offered};
ghost use Rattle.xg_bracket.specs.Board.{last_round};
ghost use Rattle.xg_jobs.specs.Rows.{ArePlainSums, HaveSmallRows};
ghost use Rattle.xg_engine.specs.Evaluations.{AreSumsAfter, CanEvaluate, HasRoomForRows, best_offer};
ghost use Rattle.xg_engine.specs.Players.{IsSmallPlan};
ghost use Rattle.xg_engine.specs.Sources.{CanMakeRows};

use crate::source::RowSource;
use def_plus::Variant;
use std::alloc::{AllocError, Global};
use std::mem::replace;
use std::sync::Wait;
use std::thread::Threads;
use xg_bracket::Board;
use xg_jobs::{RowMaker, Rows, SmallRows};
use xg_plan::{Plan, Player, Reply};
use xg_reply::best_reply;
use xg_seq::SeqForm;

/// The bracket so far, and room for the rows against both sums of plans and for each player's best reply.
#[derive(Drop)]
pub(crate) struct Evaluator {
    pub(crate) board: Board,
    pub(crate) room: RowRoom,
    pub(crate) reply_one: Reply,
    pub(crate) reply_two: Reply,
}

/// Rows, and room for those that are made in 64 bits.
#[derive(Drop)]
pub(crate) struct RowRoom {
    pub(crate) rows: Rows,
    pub(crate) small_rows: SmallRows,
}

impl RowRoom {
    fn new(alloc: Global, form: &SeqForm) -> Result<RowRoom, AllocError>
        ensures { IfOk result (HasRoomForRows form.now) }
    {
        let Ok(rows) = Rows::new(alloc, form) else {
            return Err(AllocError);
        };
        let Ok(small_rows) = SmallRows::new(alloc, form) else {
            drop(rows);
            return Err(AllocError);
        };
        Ok(RowRoom { rows, small_rows })
    }

    // The leaf sums of each player's sequences against the other player's plan. Where they are made in 64 bits, no
    // memory is taken.
    fn make<Rt: Threads + Wait + Sync, M: RowMaker>(
        &mut self,
        source: &RowSource<'_, Rt, M>,
        one: &Plan,
        two: &Plan,
    ) -> Result<(), AllocError>
        requires source { CanMakeRows Rt.row M.RowMaker source.now }
        requires plan_one { IsSmallPlan source.now.form.now.sets_one one.now }
        requires plan_two { IsSmallPlan source.now.form.now.sets_two two.now }
        requires room { HasRoomForRows source.now.form.now self.old }
        ensures sums { OnOk result (ArePlainSums source.now.form.now one.now two.now self.new.rows) }
        ensures small { OnOk result (IsTrue (M.makes_small source.now.maker.now)
            → HaveSmallRows source.now.form.now one.now two.now
            → ArePlainSums source.now.form.now one.now two.now self.new.small_rows) }
        ensures room { OnOk result (HasRoomForRows source.now.form.now self.new) }
    {
        if source.small_rows(one, two, &mut self.small_rows) {
            self.rows.widen(&self.small_rows);
        } else {
            let Ok(rows) = source.rows(one, two) else {
                return Err(AllocError);
            };
            // By a call: what is assigned to is dropped field by field.
            drop(replace(&mut self.rows, rows));
        }
        Ok(())
    }
}

impl Evaluator {
    /// Nothing is evaluated yet.
    pub(crate) fn new(
        alloc: Global,
        form: &SeqForm,
        evaluations: u32,
        variant: Variant,
    ) -> Result<Evaluator, AllocError>
        ensures room { IfOk result (λ evaluator. CanEvaluate variant form.now evaluations evaluator) }
        ensures board { IfOk result (λ evaluator. evaluator.board.board ≡ new_board) }
    {
        let Ok(reply_one) = Reply::new(alloc, form, Player::One) else {
            return Err(AllocError);
        };
        let Ok(reply_two) = Reply::new(alloc, form, Player::Two) else {
            drop(reply_one);
            return Err(AllocError);
        };
        let Ok(room) = RowRoom::new(alloc, form) else {
            drop(reply_one);
            drop(reply_two);
            return Err(AllocError);
        };
        let Ok(board) = Board::of_variant(alloc, form, evaluations, variant) else {
            drop(reply_one);
            drop(reply_two);
            drop(room);
            return Err(AllocError);
        };
        Ok(Evaluator {
            board,
            room,
            reply_one,
            reply_two,
        })
    }

    /// Offers both sums of plans after a round to the bracket, with each player's best reply to the other's.
    pub(crate) fn evaluate<Rt: Threads + Wait + Sync, M: RowMaker>(
        &mut self,
        source: &RowSource<'_, Rt, M>,
        round: u32,
        one: &Plan,
        two: &Plan,
    ) -> Result<(), AllocError>
        requires source { CanMakeRows Rt.row M.RowMaker source.now }
        requires plans { AreSumsAfter self.old.board.variant source.now.form.now round one.now two.now }
        requires later { last_round self.old.board.board.trace < round }
        requires replies { CanEvaluate self.old.board.variant source.now.form.now self.old.board.capacity self.old }
        requires room { length self.old.board.board.trace < self.old.board.capacity }
        ensures room { OnOk result
            (CanEvaluate self.old.board.variant source.now.form.now self.old.board.capacity self.new) }
        ensures board { OnOk result (self.new.board.board ≡ offered self.old.board.board
            (best_offer self.old.board.variant source.now.form.now round one.now two.now)) }
    {
        let Ok(()) = self.room.make(source, one, two) else {
            return Err(AllocError);
        };
        let rows = &self.room.rows;
        best_reply(source.form, Player::Two, rows.two(), &mut self.reply_two);
        best_reply(source.form, Player::One, rows.one(), &mut self.reply_one);
        self.board
            .offer(round, one, two, &self.reply_two, &self.reply_one);
        Ok(())
    }
}
