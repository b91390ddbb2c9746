//! An end of the bracket so far, and how it gives way to a better one.
ghost use Rattle.std.specs.Prelude.{◌≡◌, ◌*ℤ◌, ◌<◌, ◌≤◌, int_lt, length, pos, unsigned_abs};
ghost use Rattle.def_sums.specs.Limits.{most_row};
ghost use Rattle.def_reply.specs.Offers.{keep_lower, keep_upper, most_divisor};
ghost use Rattle.xg_bracket.specs.Ends.{CanKeep, end_after, kept_end, kept_of};

use crate::parts::PlanAndReply;
use xg_plan::{Plan, Reply};

// A player's plan after a round, by what its bound is divided, and the reply to it, which is one for so many sets.
#[derive(Drop)]
pub(crate) struct BestEnd {
    pub(crate) round: u32,
    pub(crate) divisor: u32,
    pub(crate) plan: Plan,
    pub(crate) reply: Reply,
    pub(crate) sets: u32,
}

impl BestEnd {
    pub(crate) fn into_parts(self) -> PlanAndReply
        ensures plan { result.plan ≡ self.plan }
        ensures reply { result.reply.reply ≡ self.reply.reply }
    {
        PlanAndReply {
            plan: self.plan,
            reply: self.reply,
        }
    }
}

// Keeps the plan with the greater floor by its divisor, of equals the one that is kept.
pub(crate) fn offer_lower(
    end: &mut BestEnd,
    offers: usize,
    round: u32,
    divisor: u32,
    plan: &Plan,
    reply: &Reply,
)
    requires next { CanKeep end.old divisor plan.now reply.now.reply }
    ensures end { kept_of end.new
        ≡ keep_lower (end_after offers (kept_of end.old)) (kept_end round divisor plan.now reply.now.reply) }
    ensures plans { length end.new.plan ≡ length end.old.plan }
    ensures sets { end.new.sets ≡ end.old.sets }
    ensures replies { length end.new.reply.reply.sets ≡ length end.old.reply.reply.sets }
{
    if offers == 0 || is_less(&end.reply, divisor, reply, end.divisor) {
        keep(end, round, divisor, plan, reply);
    }
}

// Keeps the plan with the lower ceiling by its divisor, of equals the one that is kept.
pub(crate) fn offer_upper(
    end: &mut BestEnd,
    offers: usize,
    round: u32,
    divisor: u32,
    plan: &Plan,
    reply: &Reply,
)
    requires next { CanKeep end.old divisor plan.now reply.now.reply }
    ensures end { kept_of end.new
        ≡ keep_upper (end_after offers (kept_of end.old)) (kept_end round divisor plan.now reply.now.reply) }
    ensures plans { length end.new.plan ≡ length end.old.plan }
    ensures sets { end.new.sets ≡ end.old.sets }
    ensures replies { length end.new.reply.reply.sets ≡ length end.old.reply.reply.sets }
{
    if offers == 0 || is_less(reply, end.divisor, &end.reply, divisor) {
        keep(end, round, divisor, plan, reply);
    }
}

// The first reply's total times the first factor is below the second's times the second.
fn is_less(first: &Reply, factor: u32, second: &Reply, other_factor: u32) -> bool
    requires first { unsigned_abs first.now.reply.total ≤ most_row }
    requires second { unsigned_abs second.now.reply.total ≤ most_row }
    requires factor { factor ≤ most_divisor }
    requires other_factor { other_factor ≤ most_divisor }
    ensures { result ≡ int_lt (first.now.reply.total *ℤ pos factor) (second.now.reply.total *ℤ pos other_factor) }
{
    times(first, factor) < times(second, other_factor)
}

fn times(reply: &Reply, factor: u32) -> i128
    requires total { unsigned_abs reply.now.reply.total ≤ most_row }
    requires factor { factor ≤ most_divisor }
    ensures { result ≡ reply.now.reply.total *ℤ pos factor }
{
    reply.total() * i128::from(factor)
}

fn keep(end: &mut BestEnd, round: u32, divisor: u32, plan: &Plan, reply: &Reply)
    requires sequences { length plan.now ≡ length end.old.plan }
    requires kept_sets { length end.old.reply.reply.sets ≡ end.old.sets }
    requires sets { length reply.now.reply.sets ≡ end.old.sets }
    ensures end { kept_of end.new ≡ kept_end round divisor plan.now reply.now.reply }
    ensures sets { end.new.sets ≡ end.old.sets }
{
    end.round = round;
    end.divisor = divisor;
    end.plan.copy_from(plan);
    copy_reply(reply, end.sets, &mut end.reply);
}

// Makes `into` the same reply at this number of sets. Takes no memory, and copies no worths.
fn copy_reply(reply: &Reply, sets: u32, into: &mut Reply)
    requires from { length reply.now.reply.sets ≡ sets }
    requires into { length into.old.reply.sets ≡ sets }
    ensures { into.new.reply ≡ reply.now.reply }
{
    for set in 0..sets {
        into.put(set + 1, reply.choice(set + 1), reply.value(set + 1));
    }
    into.put_total(reply.total());
}
