//! Bounds that can be written: those of an outcome over the form of its game, and those of a certificate that was read.
ghost use Rattle.std.specs.Prelude.{◌≡◌, ◌-◌, ◌≤◌, [], Some, length};
ghost use Rattle.std.specs.Prelude.{slice_get, slice_index, slice_index_or, unsigned_abs};
ghost use Rattle.def_cert_accepted.specs.OfOutcome.{printed_bound};
ghost use Rattle.def_cert_verdict.specs.Certificate.{PrintedBounds};
ghost use Rattle.def_cert_verdict.specs.Ranges.{IsFromTo};
ghost use Rattle.def_fraction.specs.Fraction.{most};
ghost use Rattle.def_reply.specs.Reply.{choices_of, values_of};
ghost use Rattle.def_sums.specs.Limits.{most_root, most_row};
ghost use Rattle.xg_outcome.specs.Outcome.{end_seen};
ghost use Rattle.xg_cert.specs.Printed.{bounds_in, plan_in, reply_in};
ghost use Rattle.xg_cert.specs.Writable.{AreFormBounds, end_in, form_bounds, reply_end_in};

use crate::cert::Cert;
use crate::read_lines::ValueLine;
use crate::scales::scale_of;
use def_reply::TraceLine;
use def_tree::Player;
use xg_frac::{Ratio, ratio};
use xg_outcome::End;
use xg_seq::SeqForm;

/// What the lines from the trace to the bracket are written from.
///
/// A set's numbers and its reply are asked by the set's number, which counts from 1.
pub(crate) trait Bounds {
    // what the lines say, and what holds where they can be written
    ghost printed: { Self → PrintedBounds };

    ghost can_write: { Self → Type 0 };

    fn trace(&self) -> &[TraceLine]
        requires { can_write self.now }
        ensures { result.now ≡ (printed self.now).trace };

    fn set_count(&self, player: Player) -> u32
        requires { can_write self.now }
        ensures plan { result ≡ length (plan_in player (printed self.now)).weights }
        ensures reply { result ≡ length (reply_in player (printed self.now)).sets };

    fn root(&self, player: Player) -> u64
        requires { can_write self.now }
        ensures { result ≡ (plan_in player (printed self.now)).root };

    fn weights(&self, player: Player, set: u32) -> &[u64]
        requires can { can_write self.now }
        requires from_one { 1 ≤ set }
        requires there { set ≤ length (plan_in player (printed self.now)).weights }
        ensures value { result.now ≡ slice_index_or (plan_in player (printed self.now)).weights (set - 1) [] }
        ensures some { 1 ≤ length result.now };

    fn total(&self, player: Player) -> i128
        requires { can_write self.now }
        ensures { result ≡ (reply_in player (printed self.now)).total };

    fn set_reply(&self, player: Player, set: u32) -> ValueLine
        requires can { can_write self.now }
        requires from_one { 1 ≤ set }
        requires there { set ≤ length (reply_in player (printed self.now)).sets }
        ensures value { slice_get (values_of (reply_in player (printed self.now)).sets) (set - 1) ≡ Some result.value }
        ensures choice { slice_get (choices_of (reply_in player (printed self.now)).sets) (set - 1)
            ≡ Some result.choice };

    /// The ends of the bracket, the lower first.
    fn bracket(&self) -> (Ratio, Ratio)
        requires { can_write self.now }
        ensures low { result.0 ≡ (printed self.now).low }
        ensures high { result.1 ≡ (printed self.now).high };
}

impl Bounds for Cert {
    ghost printed = { λ c. bounds_in c.certificate };

    ghost can_write = { λ c. 1 ≤ c.certificate.head.rounds };

    fn trace(&self) -> &[TraceLine] {
        Cert::trace(self)
    }

    fn set_count(&self, player: Player) -> u32 {
        Cert::set_count(self, player)
    }

    fn root(&self, player: Player) -> u64 {
        Cert::root(self, player)
    }

    fn weights(&self, player: Player, set: u32) -> &[u64] {
        let _count = Cert::set_count(self, player);
        Cert::weights(self, player, set)
    }

    fn total(&self, player: Player) -> i128 {
        Cert::total(self, player)
    }

    fn set_reply(&self, player: Player, set: u32) -> ValueLine {
        let _count = Cert::set_count(self, player);
        ValueLine {
            value: Cert::value(self, player, set),
            choice: Cert::choice(self, player, set),
        }
    }

    fn bracket(&self) -> (Ratio, Ratio) {
        (Cert::low(self), Cert::high(self))
    }
}

/// The trace and both ends of an outcome, with the form and the unit of its game.
#[derive(Drop)]
pub(crate) struct FormBounds<'a> {
    pub(crate) form: &'a SeqForm,
    pub(crate) unit: u64,
    pub(crate) trace: &'a [TraceLine],
    pub(crate) lower: &'a End,
    pub(crate) upper: &'a End,
}

impl<'a> FormBounds<'a> {
    /// The end at which the player's plan stands.
    fn end(&self, player: Player) -> &End
        ensures { end_seen result.now ≡ end_in player self.now }
    {
        match player {
            Player::One => self.lower,
            Player::Two => self.upper,
        }
    }

    /// The end at which the player's reply stands.
    fn reply_end(&self, player: Player) -> &End
        ensures { end_seen result.now ≡ reply_end_in player self.now }
    {
        match player {
            Player::One => self.upper,
            Player::Two => self.lower,
        }
    }
}

impl<'a> Bounds for FormBounds<'a> {
    ghost printed = { form_bounds };

    ghost can_write = { AreFormBounds };

    fn trace(&self) -> &[TraceLine] {
        self.trace
    }

    fn set_count(&self, player: Player) -> u32 {
        self.form.set_count(player)
    }

    fn root(&self, player: Player) -> u64 {
        self.end(player).plan.root()
    }

    fn weights(&self, player: Player, set: u32) -> &[u64] {
        let place = self.form.place_of(player, set);
        let first = place.first as usize;
        &self.end(player).plan.weights()[first..first + place.actions as usize]
    }

    fn total(&self, player: Player) -> i128 {
        self.reply_end(player).reply.total()
    }

    fn set_reply(&self, player: Player, set: u32) -> ValueLine {
        let reply = &self.reply_end(player).reply;
        ValueLine {
            value: reply.value(set),
            choice: reply.choice(set),
        }
    }

    fn bracket(&self) -> (Ratio, Ratio) {
        (bound(self.unit, self.lower), bound(self.unit, self.upper))
    }
}

/// The total of the reply over unit and root.
fn bound(unit: u64, end: &End) -> Ratio
    requires unit { IsFromTo 1 most unit }
    requires root { IsFromTo 1 most_root (slice_index end.now.plan 0) }
    requires total { unsigned_abs end.now.reply.reply.total ≤ most_row }
    ensures { result ≡ printed_bound unit (end_seen end.now) }
{
    ratio(end.reply.total(), scale_of(unit, end.plan.root()))
}
