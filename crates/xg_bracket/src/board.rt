//! The board of a bracket.
ghost use Rattle.std.specs.Prelude.{◌≡◌, ◌<◌, ◌≤◌, ◌++◌, ◌↔◌, [], ◌∷◌, All, IfOk, IsNone, None};
ghost use Rattle.std.specs.Prelude.{length, vec_capacity, vec_len};
ghost use Rattle.std.specs.Option.{option_map};
ghost use Rattle.def_plus.specs.declared.Variant.TheVariants.{Plain};
ghost use Rattle.def_plus.specs.Variants.{weight_of_rounds};
ghost use Rattle.def_reply.specs.Bracket.{LiesWithinBy};
ghost use Rattle.def_reply.specs.declared.TraceLine.{TraceLine};
ghost use Rattle.def_reply.specs.Offers.{new_board, offered};
ghost use Rattle.xg_bracket.specs.Board.{MayBeOffered, offer_of, sizes_of};
ghost use Rattle.xg_bracket.specs.Ends.{IsFreshEnd, line_with};

use crate::end::{BestEnd, offer_lower, offer_upper};
use crate::parts::BoardParts;
use crate::weighing::weight;
use def_plus::Variant;
use def_reply::TraceLine;
use std::alloc::{AllocError, Global};
use std::marker::Model;
use xg_plan::{Plan, Player, Reply};
use xg_seq::SeqForm;

/// The bracket of the plans that were offered: player one's with the greatest floor and player two's with the least
/// ceiling, each by what the rounds up to its own weigh, and a line for each offer.
///
/// A floor or a ceiling is a total of a reply; divided by what its plan's rounds weigh it is one of the average plan
/// (Zinkevich and others 2007), since the plans of all rounds, each as many times as it weighs, add up to the plan.
#[derive(Drop)]
pub struct Board {
    variant: Variant,
    trace: Vec<TraceLine>,
    capacity: u32,
    lower: BestEnd,
    upper: BestEnd,
}

impl Model for Board {
    ghost use Rattle.xg_bracket.specs.Board.{KeepsBoard, SizedBoard, sized_board};

    ghost Value = { SizedBoard };

    ghost view = { λ b. sized_board b.variant b.trace.items b.capacity b.lower b.upper };

    ghost use Rattle.std.specs.Prelude.{vec_capacity};

    ghost invariant = { λ b. KeepsBoard b.variant b.trace.items (vec_capacity b.trace) b.capacity b.lower b.upper };
}

impl Board {
    /// A board with room for so many offers of plans in the form, after plain rounds.
    pub fn new(alloc: Global, form: &SeqForm, capacity: u32) -> Result<Board, AllocError>
        ensures { IfOk result (λ board. board
            ≡ record { board = new_board; capacity = capacity; sizes = sizes_of form.now; variant = Plain }) }
    {
        Board::of_variant(alloc, form, capacity, Variant::Plain)
    }

    /// The same after rounds of this variant.
    pub fn of_variant(
        alloc: Global,
        form: &SeqForm,
        capacity: u32,
        variant: Variant,
    ) -> Result<Board, AllocError>
        ensures { IfOk result (λ board. board
            ≡ record { board = new_board; capacity = capacity; sizes = sizes_of form.now; variant = variant }) }
    {
        Ok(Board {
            variant,
            trace: Vec::with_capacity(alloc, capacity as usize)?,
            capacity,
            lower: new_end(alloc, form, Player::One, Player::Two)?,
            upper: new_end(alloc, form, Player::Two, Player::One)?,
        })
    }

    /// Offers both players' plans after a round, with the best reply to each.
    pub fn offer(
        &mut self,
        round: u32,
        one: &Plan,
        two: &Plan,
        against_one: &Reply,
        against_two: &Reply,
    )
        requires room { length self.old.board.trace < self.old.capacity }
        requires fair { MayBeOffered self.old
            (offer_of self.old.variant round one.now two.now against_one.now.reply against_two.now.reply) }
        ensures board { self.new.board
            ≡ offered self.old.board
            (offer_of self.old.variant round one.now two.now against_one.now.reply against_two.now.reply) }
        ensures capacity { self.new.capacity ≡ self.old.capacity }
        ensures sizes { self.new.sizes ≡ self.old.sizes }
        ensures variant { self.new.variant ≡ self.old.variant }

        // The bracket never widens.
        ensures within { (line : TraceLine) → self.new.board.trace ≡ self.old.board.trace ++ line ∷ []
            → All (λ earlier. LiesWithinBy (weight_of_rounds self.old.variant) line earlier) self.old.board.trace }
    {
        let offers = self.trace.len();
        let divisor = weight(self.variant, round);
        offer_lower(&mut self.lower, offers, round, divisor, one, against_one);
        offer_upper(&mut self.upper, offers, round, divisor, two, against_two);
        push_line(&mut self.trace, round, &self.lower, &self.upper);
    }

    /// A line for each offer.
    pub fn trace(&self) -> &[TraceLine]
        ensures { result.now ≡ self.now.board.trace }
    {
        &self.trace
    }

    /// Player one's plan with the greatest floor, and player two's reply to it; the worths are none of the reply's.
    pub fn lower(&self) -> Option<(&Plan, &Reply)>
        ensures none { IsNone result ↔ (self.now.board.lower ≡ None) }
        ensures before { IsNone result ↔ (self.now.board.trace ≡ []) }
        ensures plan { option_map (λ end. end.0.now) result ≡ option_map (λ kept. kept.plan) self.now.board.lower }
        ensures reply { option_map (λ end. end.1.now.reply) result
            ≡ option_map (λ kept. kept.reply) self.now.board.lower }
    {
        if self.trace.is_empty() {
            return None;
        }
        Some((&self.lower.plan, &self.lower.reply))
    }

    /// Player two's plan with the least ceiling, and player one's reply to it; the worths are none of the reply's.
    pub fn upper(&self) -> Option<(&Plan, &Reply)>
        ensures none { IsNone result ↔ (self.now.board.upper ≡ None) }
        ensures before { IsNone result ↔ (self.now.board.trace ≡ []) }
        ensures plan { option_map (λ end. end.0.now) result ≡ option_map (λ kept. kept.plan) self.now.board.upper }
        ensures reply { option_map (λ end. end.1.now.reply) result
            ≡ option_map (λ kept. kept.reply) self.now.board.upper }
    {
        if self.trace.is_empty() {
            return None;
        }
        Some((&self.upper.plan, &self.upper.reply))
    }

    /// The lines and the ends themselves. Takes no memory.
    pub fn into_parts(self) -> BoardParts
        ensures trace { result.trace.items ≡ self.board.trace }
        ensures none { IsNone result.ends ↔ (self.board.trace ≡ []) }
        ensures lower_plan { option_map (λ ends. ends.0.plan) result.ends
            ≡ option_map (λ kept. kept.plan) self.board.lower }
        ensures lower_reply { option_map (λ ends. ends.0.reply.reply) result.ends
            ≡ option_map (λ kept. kept.reply) self.board.lower }
        ensures upper_plan { option_map (λ ends. ends.1.plan) result.ends
            ≡ option_map (λ kept. kept.plan) self.board.upper }
        ensures upper_reply { option_map (λ ends. ends.1.reply.reply) result.ends
            ≡ option_map (λ kept. kept.reply) self.board.upper }
    {
        let Board {
            trace,
            lower,
            upper,
            ..
        } = self;
        if trace.is_empty() {
            return BoardParts { trace, ends: None };
        }
        let ends = (lower.into_parts(), upper.into_parts());
        BoardParts {
            trace,
            ends: Some(ends),
        }
    }
}

// Room for a player's plan and the other player's reply to it.
fn new_end(
    alloc: Global,
    form: &SeqForm,
    player: Player,
    other: Player,
) -> Result<BestEnd, AllocError>
    ensures { IfOk result (λ end. IsFreshEnd form.now player other end) }
{
    Ok(BestEnd {
        round: 0,
        divisor: 0,
        plan: Plan::new(alloc, form, player)?,
        reply: Reply::new(alloc, form, other)?,
        sets: form.set_count(other),
    })
}

fn push_line(trace: &mut Vec<TraceLine>, round: u32, lower: &BestEnd, upper: &BestEnd)
    requires { vec_len trace.old < vec_capacity trace.old }
    ensures lines { trace.new.items ≡ trace.old.items ++ line_with round lower.now upper.now ∷ [] }
    ensures capacity { vec_capacity trace.old ≤ vec_capacity trace.new }
{
    let line = TraceLine {
        round,
        low_round: lower.round,
        low: lower.reply.total(),
        high_round: upper.round,
        high: upper.reply.total(),
    };
    let Ok(()) = trace.push(line) else {
        unreachable!()
    };
}
