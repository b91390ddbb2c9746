//! Both players from round to round.
ghost use Rattle.std.specs.Prelude.{◌≡◌, ◌+◌, ◌*◌, ◌<◌, ◌≤◌, ℕ, IfOk, IsTrue, OnOk};
ghost use Rattle.std.specs.Prelude.{false, length, pos, replicate, slice_index, true};
ghost use Rattle.def_tree.specs.declared.Player.TheVariants.{One, Two};
ghost use Rattle.def_sums.specs.Limits.{most_root};
ghost use Rattle.def_plan.specs.Form.{player_sets, sequence_count};
ghost use Rattle.def_plan.specs.Plan.{cleared};
ghost use Rattle.def_plus.specs.declared.Variant.{Variant};
ghost use Rattle.def_plus.specs.Variants.{most_rounds_of, most_scale_of};
ghost use Rattle.xg_jobs.specs.Rows.{ArePlainSums, HaveSmallRows};
ghost use Rattle.xg_plan.specs.Plan.{AreOfOneForm};
ghost use Rattle.xg_engine.specs.Players.{IsSoundForm, StandAfter, StandsWith};
ghost use Rattle.xg_engine.specs.Players.{regrets_kept, sum_with, times_of};
ghost use Rattle.xg_engine.specs.Sources.{CanMakeRows};
ghost use Rattle.xg_engine.specs.Turns.{AreReady, CanLearn, CanPlan, CanTakeTurn};
ghost use Rattle.xg_engine.specs.Turns.{HasLearnedFrom, HasPlanned, HasTakenTurn, plan_after};

use crate::source::RowSource;
use crate::turns::{Turn, take_turns};
use def_plus::Variant;
use std::alloc::{AllocError, Global};
use std::sync::Wait;
use std::thread::Threads;
use xg_closer::{Regrets, close_round, close_small_round, play_into};
use xg_jobs::{RowMaker, SmallRows};
use xg_plan::{Plan, Play, Player, add_times, add_to, from_play};
use xg_seq::SeqForm;

/// A player's regrets and sum of plans, with the play and the plan of the last round.
#[derive(Drop)]
pub(crate) struct Learner {
    pub(crate) regrets: Regrets,
    pub(crate) play: Play,
    pub(crate) plan: Plan,
    pub(crate) sum: Plan,
}

/// Both players, with room for the rows of a round, and whether their sums have the plans of the next round already.
#[derive(Drop)]
pub(crate) struct Players {
    pub(crate) one: Learner,
    pub(crate) two: Learner,
    pub(crate) rows: SmallRows,
    pub(crate) have_plans: bool,
}

impl Learner {
    /// A player before the first round.
    fn new(alloc: Global, form: &SeqForm, player: Player) -> Result<Learner, AllocError>
        ensures { let sets = player_sets form.now player in
            IfOk result (λ learner.
            StandsWith sets 0 (replicate (sequence_count sets) (pos 0)) (cleared sets) learner) }
    {
        let Ok(regrets) = Regrets::new(alloc, form, player) else {
            return Err(AllocError);
        };
        let Ok(play) = Play::new(alloc, form, player) else {
            drop(regrets);
            return Err(AllocError);
        };
        let Ok(plan) = Plan::new(alloc, form, player) else {
            drop(regrets);
            drop(play);
            return Err(AllocError);
        };
        let Ok(sum) = Plan::new(alloc, form, player) else {
            drop(regrets);
            drop(play);
            drop(plan);
            return Err(AllocError);
        };
        Ok(Learner {
            regrets,
            play,
            plan,
            sum,
        })
    }

    /// Plays by the regrets as they stand, and adds the plan of this play to the sum.
    pub(crate) fn plan_round(
        &mut self,
        form: &SeqForm,
        player: Player,
        variant: Variant,
        scale: u32,
        round: u64,
    )
        requires { CanPlan form.now player variant scale round self.old }
        ensures { HasPlanned form.now player variant scale round self.old self.new }
    {
        play_into(form, player, &self.regrets, &mut self.play);
        from_play(form, player, &self.play, scale as u64, &mut self.plan);
        add_plan(&mut self.sum, &self.plan, variant, round);
    }

    /// Adds the regrets of a round, by the rows against the other player's plan, and in rounds of CFR+ cuts them.
    fn learn(&mut self, form: &SeqForm, player: Player, variant: Variant, rows: &[i128])
        requires { CanLearn form.now player rows.now self.old }
        ensures { HasLearnedFrom form.now player variant rows.now self.old self.new }
    {
        close_round(form, player, &mut self.regrets, &self.play, rows);
        cut_regrets(&mut self.regrets, variant);
    }

    /// The same by rows of 64 bits.
    pub(crate) fn learn_small(
        &mut self,
        form: &SeqForm,
        player: Player,
        variant: Variant,
        rows: &[i64],
    )
        requires { CanLearn form.now player rows.now self.old }
        ensures { HasLearnedFrom form.now player variant rows.now self.old self.new }
    {
        close_small_round(form, player, &mut self.regrets, &self.play, rows);
        cut_regrets(&mut self.regrets, variant);
    }

    /// The sum of plans alone.
    pub(crate) fn into_sum(self) -> Plan
        ensures { result ≡ self.sum }
    {
        let Learner {
            regrets,
            play,
            plan,
            sum,
        } = self;
        drop(regrets);
        drop(play);
        drop(plan);
        sum
    }

    /// Learns from the rows of a round, and if it goes on, plays the next one, too.
    pub(crate) fn take_turn(&mut self, form: &SeqForm, player: Player, turn: Turn, rows: &[i64])
        requires { CanTakeTurn form.now player turn rows.now self.old }
        ensures { HasTakenTurn form.now player turn rows.now self.old self.new }
    {
        self.learn_small(form, player, turn.variant, rows);
        if turn.goes_on {
            self.plan_round(form, player, turn.variant, turn.scale, turn.next);
        }
    }
}

impl Players {
    /// Both players before the first round.
    pub(crate) fn new(alloc: Global, form: &SeqForm) -> Result<Players, AllocError>
        ensures stand { (variant : Variant) (scale : ℕ)
            → IfOk result (λ players. StandAfter variant form.now scale 0 players) }
        ensures no_plans { IfOk result (λ players. players.have_plans ≡ false) }
    {
        let Ok(rows) = SmallRows::new(alloc, form) else {
            return Err(AllocError);
        };
        let Ok(one) = Learner::new(alloc, form, Player::One) else {
            drop(rows);
            return Err(AllocError);
        };
        let Ok(two) = Learner::new(alloc, form, Player::Two) else {
            drop(rows);
            drop(one);
            return Err(AllocError);
        };
        Ok(Players {
            one,
            two,
            rows,
            have_plans: false,
        })
    }

    // Both players play by their regrets as they stand, and add the plans of these plays to their sums, where they
    // haven't done so yet.
    fn make_plans(&mut self, form: &SeqForm, variant: Variant, scale: u32, so_far: u32)
        requires form { IsSoundForm form.now }
        requires some_scale { 1 ≤ scale }
        requires small_scale { scale ≤ most_scale_of variant }
        requires few_rounds { so_far < most_rounds_of variant }
        requires ready { AreReady variant form.now scale so_far self.old.have_plans self.old }
        ensures { AreReady variant form.now scale so_far true self.new }
    {
        if !self.have_plans {
            let round = u64::from(so_far) + 1;
            self.one
                .plan_round(form, Player::One, variant, scale, round);
            self.two
                .plan_round(form, Player::Two, variant, scale, round);
            self.have_plans = true;
        }
    }

    /// Plays a round: both plans are made from the regrets as they stand, and both players learn from these two plans.
    /// If it goes on, the plans of the next round may be made, too.
    pub(crate) fn play_round<Rt: Threads + Wait + Sync, M: RowMaker>(
        &mut self,
        source: &RowSource<'_, Rt, M>,
        variant: Variant,
        scale: u32,
        so_far: u32,
        goes_on: bool,
    ) -> Result<(), AllocError>
        requires source { CanMakeRows Rt.row M.RowMaker source.now }
        requires some_scale { 1 ≤ scale }
        requires small_scale { scale ≤ most_scale_of variant }
        requires few_rounds { so_far < most_rounds_of variant }
        requires few_more { IsTrue goes_on → so_far + 1 < most_rounds_of variant }
        requires ready { AreReady variant source.now.form.now scale so_far self.old.have_plans self.old }
        ensures ready { OnOk result
            (AreReady variant source.now.form.now scale (so_far + 1) self.new.have_plans self.new) }
        ensures stops { OnOk result (goes_on ≡ false → self.new.have_plans ≡ false) }
        ensures small { let form = source.now.form.now in
            let one = plan_after variant form One scale so_far in
            let two = plan_after variant form Two scale so_far in
            OnOk result (IsTrue (M.makes_small source.now.maker.now) → HaveSmallRows form one two
            → ArePlainSums form one two self.new.rows) }
    {
        self.make_plans(source.form, variant, scale, so_far);
        if source.small_rows(&self.one.plan, &self.two.plan, &mut self.rows) {
            let turn = Turn {
                variant,
                scale,
                next: u64::from(so_far) + 2,
                goes_on,
            };
            take_turns(source, turn, &self.rows, &mut self.one, &mut self.two);
            self.have_plans = goes_on;
            return Ok(());
        }
        let Ok(rows) = source.rows(&self.one.plan, &self.two.plan) else {
            return Err(AllocError);
        };
        self.one
            .learn(source.form, Player::One, variant, rows.one());
        self.two
            .learn(source.form, Player::Two, variant, rows.two());
        drop(rows);
        self.have_plans = false;
        Ok(())
    }
}

// Adds the plan of a round to the sum, in rounds of CFR+ as many times as the number of the round.
fn add_plan(sum: &mut Plan, plan: &Plan, variant: Variant, round: u64)
    requires as_many { length sum.old ≡ length plan.now }
    requires limit { slice_index sum.old 0 + times_of variant round * slice_index plan.now 0 ≤ most_root }
    requires one_form { AreOfOneForm sum.old plan.now }
    ensures { sum.new ≡ sum_with variant round sum.old plan.now }
{
    match variant {
        Variant::Plain => add_to(sum, plan),
        Variant::Plus => add_times(sum, plan, round),
    }
}

// Cuts the regrets of rounds of CFR+.
fn cut_regrets(regrets: &mut Regrets, variant: Variant)
    ensures regrets { regrets.new.of_sequences ≡ regrets_kept variant regrets.old.of_sequences }
    ensures count { length regrets.new.of_sequences ≡ length regrets.old.of_sequences }
    ensures closed { regrets.new.closed ≡ regrets.old.closed }
{
    match variant {
        Variant::Plain => {}
        Variant::Plus => regrets.cut(),
    }
}
