//! Lists of actions and of payoffs.
ghost use Rattle.std.specs.Prelude.{◌≡◌, ◌-◌, [], length, option_map};
ghost use Rattle.def_file.specs.Reading.{action_at, actions_at, actions_from, chance_at, payoff_at, payoffs_at};
ghost use Rattle.def_file.specs.Reading.{payoffs_from};
ghost use Rattle.xg_record.specs.Entry.{actions_seen};
ghost use Rattle.xg_record.specs.Seen.{action_seen};
ghost use Rattle.xg_read.specs.Gives.{Gives, GivesFor, GivesSeen};

use crate::reader::Reader;
use crate::wanted::Wanted;
use def_file::{EntryKind, FileFault};
use xg_frac::{Frac, zero};
use xg_game::Refused;
use xg_record::{ActionView, ActionViews, EntryActions, Payoffs};

impl<'a> Reader<'a> {
    /// The probability of an action, which is read where chance moves, and else is 0.
    fn chance(&mut self, kind: EntryKind) -> Result<Frac, FileFault>
        ensures exact { Gives result self.new.at (chance_at kind self.old.whole self.old.at) }
        ensures whole { self.new.whole ≡ self.old.whole }
    {
        match kind {
            EntryKind::Chance => self.literal(),
            EntryKind::Personal | EntryKind::Leaf => Ok(zero()),
        }
    }

    /// An action: its name, and its probability where chance moves.
    #[tactic(auto, unfolding(def_file::specs::Reading::action_at))]
    fn action(&mut self, kind: EntryKind) -> Result<ActionView<'a>, FileFault>
        ensures exact { GivesSeen action_seen result self.new.at (action_at kind self.old.whole self.old.at) }
        ensures whole { self.new.whole ≡ self.old.whole }
    {
        let name = self.next_view()?;
        let chance = self.chance(kind)?;
        Ok(ActionView { name, chance })
    }

    /// The actions up to the closing brace.
    #[tactic(auto, using(crate::proofs::Items::actions_closed, crate::proofs::Items::actions_more, crate::proofs::Items::actions_full), unfolding(def_file::specs::Reading::close_at))]
    #[inline(never)]
    fn actions_in_braces(
        &mut self,
        kind: EntryKind,
        actions: &mut ActionViews<'a>,
    ) -> Result<(), Refused>
        ensures exact { GivesFor (λ _. actions.new) result self.new.at
            (actions_from kind (length self.old.whole) [] self.old.whole self.old.at) }
        ensures whole { self.new.whole ≡ self.old.whole }
    {
        actions.clear();
        let most = self.len();
        'actions: for _ in 0..most {
            if self.comes(b'}') {
                self.token(Wanted::Close)?;
                return Ok(());
            }
            let action = self.action(kind)?;
            let Ok(()) = actions.push(action) else {
                return Err(Refused::NoMemory);
            };
        }
        Err(Refused::File(FileFault::UnexpectedEnd))
    }

    /// A list of actions, if one comes.
    #[tactic(auto, unfolding(def_file::specs::Reading::actions_at))]
    #[inline(always)]
    pub fn actions<'l>(
        &mut self,
        kind: EntryKind,
        actions: &'l mut ActionViews<'a>,
    ) -> Result<Option<EntryActions<'l>>, Refused>
    where
        'a: 'l,
        ensures exact { GivesFor (option_map actions_seen) result self.new.at
            (actions_at kind self.old.whole self.old.at) }
        ensures whole { self.new.whole ≡ self.old.whole }
    {
        if !self.comes(b'{') {
            return Ok(None);
        }
        self.token(Wanted::Open)?;
        self.actions_in_braces(kind, actions)?;
        Ok(Some(EntryActions::Viewed(actions)))
    }
}

/// Payoffs.
impl<'a> Reader<'a> {
    /// A payoff behind so many others, with the comma before it, if there is one.
    #[tactic(auto, unfolding(def_file::specs::Reading::payoff_at))]
    fn payoff(&mut self, done: &Payoffs) -> Result<Frac, FileFault>
        ensures exact { Gives result self.new.at (payoff_at done.now self.old.whole self.old.at) }
        ensures whole { self.new.whole ≡ self.old.whole }
    {
        if done.len() > 0 && self.comes(b',') {
            self.token(Wanted::Comma)?;
        }
        self.literal()
    }

    /// The payoffs up to the closing brace.
    #[tactic(auto, using(crate::proofs::Items::payoffs_closed, crate::proofs::Items::payoffs_more, crate::proofs::Items::payoffs_full), unfolding(def_file::specs::Reading::close_at))]
    #[inline(never)]
    fn payoffs_in_braces(&mut self, payoffs: &mut Payoffs) -> Result<(), Refused>
        ensures exact { GivesFor (λ _. payoffs.new) result self.new.at
            (payoffs_from (length self.old.whole) [] self.old.whole self.old.at) }
        ensures whole { self.new.whole ≡ self.old.whole }
    {
        payoffs.clear();
        let most = self.len();
        'payoffs: for _ in 0..most {
            if self.comes(b'}') {
                self.token(Wanted::Close)?;
                return Ok(());
            }
            let payoff = self.payoff(payoffs)?;
            let Ok(()) = payoffs.push(payoff) else {
                return Err(Refused::NoMemory);
            };
        }
        Err(Refused::File(FileFault::UnexpectedEnd))
    }

    /// A list of payoffs, if one comes.
    #[tactic(auto, unfolding(def_file::specs::Reading::payoffs_at))]
    #[inline(always)]
    pub fn payoffs<'l>(&mut self, payoffs: &'l mut Payoffs) -> Result<Option<&'l Payoffs>, Refused>
        ensures exact { GivesFor (option_map (λ p. p.now)) result self.new.at (payoffs_at self.old.whole self.old.at) }
        ensures whole { self.new.whole ≡ self.old.whole }
    {
        if !self.comes(b'{') {
            return Ok(None);
        }
        self.token(Wanted::Open)?;
        self.payoffs_in_braces(payoffs)?;
        Ok(Some(payoffs))
    }
}
