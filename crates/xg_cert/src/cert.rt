//! A certificate that was read.
ghost use Rattle.std.specs.Prelude.{◌≡◌, ◌↔◌, ◌-◌, ◌≤◌, [], All, None, Some, length, slice_get, slice_index_or};
ghost use Rattle.def_cert_text.specs.Versions.{VersionedFits};
ghost use Rattle.def_cert_text.specs.declared.version.TextVersion.TheVariants as versions;
ghost use Rattle.def_cert_verdict.specs.Ranges.{BoundsFit, PlanWeightsFit};
ghost use Rattle.def_cert_verdict.specs.Certificate.{printed_numbers};
ghost use Rattle.def_reply.specs.Reply.{choices_of, values_of};
ghost use Rattle.xg_outcome.specs.Outcome.{head_of};
ghost use Rattle.xg_cert.specs.Printed.{bounds_in, plan_in, reply_in, set_count_in};
ghost use Rattle.xg_cert.specs.ReadCert.{bounds_of, second_where_given, version_number};

use crate::printed::{PlanLines, ReplyLines};
use def_cert_text::TextVersion;
use def_reply::TraceLine;
use def_tree::Player;
use std::marker::Model;
use xg_frac::{Frac, Ratio};
use xg_outcome::Head;

/// All lines from the trace to the bracket.
#[derive(Drop)]
pub(crate) struct BoundsLines {
    pub(crate) trace: Vec<TraceLine>,
    pub(crate) plan_one: PlanLines,
    pub(crate) reply_two: ReplyLines,
    pub(crate) plan_two: PlanLines,
    pub(crate) reply_one: ReplyLines,
    pub(crate) low: Ratio,
    pub(crate) high: Ratio,
}

/// All lines.
#[derive(Drop)]
pub(crate) struct CertLines {
    pub(crate) version: TextVersion,
    pub(crate) head: Head,
    pub(crate) bounds: Option<BoundsLines>,
    pub(crate) second: Option<(Ratio, Ratio)>,
}

/// A certificate of either version within the ranges of its text: its head, and where a round was asked the trace, both
/// plans with the reply of the other player to each, the bracket, and in version 2 that of player two's own payoff.
///
/// Sets count from 1. Values and totals are in player one's payoff, times the unit and the root of the plan.
#[derive(Drop)]
pub struct Cert {
    pub(crate) lines: CertLines,
}

impl Model for Cert {
    ghost use Rattle.def_cert_text.specs.Versions.{VersionedCertificate, VersionedFits};
    ghost use Rattle.xg_cert.specs.ReadCert.{certificate_read};

    ghost Value = { VersionedCertificate };

    ghost view = { λ c. certificate_read c.lines };

    ghost invariant = { λ c. VersionedFits (certificate_read c.lines) };
}

impl Cert {
    /// The version of the text.
    pub fn text_version(&self) -> TextVersion
        ensures { result ≡ self.now.version }
    {
        self.lines.version
    }

    /// The number of that version.
    pub fn version(&self) -> u32
        ensures { result ≡ version_number self.now.version }
    {
        match self.lines.version {
            TextVersion::One => 1,
            TextVersion::Two => 2,
        }
    }

    /// The game's numbers, and what was asked.
    pub fn head(&self) -> &Head
        ensures value { head_of result.now ≡ self.now.certificate.head }
        ensures within { VersionedFits self.now }
        ensures alone { self.now.certificate.head.rounds ≡ 0 → self.now.certificate.bounds ≡ None }
        ensures bounds { 1 ≤ self.now.certificate.head.rounds
            → self.now.certificate.bounds ≡ Some (bounds_in self.now.certificate) }
    {
        &self.lines.head
    }

    /// Does nothing: its clauses are what is true of every certificate that was read.
    pub fn facts(&self)
        ensures within { VersionedFits self.now }
        ensures alone { self.now.certificate.head.rounds ≡ 0 → self.now.certificate.bounds ≡ None }
        ensures bounds { 1 ≤ self.now.certificate.head.rounds
            → self.now.certificate.bounds ≡ Some (bounds_in self.now.certificate) }
    {
        let _head = self.head();
    }

    /// What each leaf pays both players together.
    pub fn sum(&self) -> Frac
        ensures { result ≡ self.now.certificate.head.sum }
    {
        self.lines.head.sum
    }

    /// A line for each evaluation.
    pub fn trace(&self) -> &[TraceLine]
        ensures { result.now ≡ (bounds_in self.now.certificate).trace }
    {
        match &self.lines.bounds {
            Some(bounds) => &bounds.trace,
            None => &[],
        }
    }

    pub(crate) fn set_count(&self, player: Player) -> u32
        requires { 1 ≤ self.now.certificate.head.rounds }
        ensures head { result ≡ set_count_in player self.now.certificate.head }
        ensures plan { result ≡ length (plan_in player (bounds_in self.now.certificate)).weights }
        ensures reply { result ≡ length (reply_in player (bounds_in self.now.certificate)).sets }
        ensures some { All PlanWeightsFit (plan_in player (bounds_in self.now.certificate)).weights }
    {
        let (_plan, _reply) = (self.plan(player), self.reply(player));
        match player {
            Player::One => self.lines.head.sets.0,
            Player::Two => self.lines.head.sets.1,
        }
    }

    /// The number of the empty sequence in a player's plan.
    pub fn root(&self, player: Player) -> u64
        requires { 1 ≤ self.now.certificate.head.rounds }
        ensures { result ≡ (plan_in player (bounds_in self.now.certificate)).root }
    {
        self.plan(player).root()
    }

    /// The numbers of a set's sequences in a player's plan.
    pub fn weights(&self, player: Player, set: u32) -> &[u64]
        requires asked { 1 ≤ self.now.certificate.head.rounds }
        requires from_one { 1 ≤ set }
        requires there { set ≤ set_count_in player self.now.certificate.head }
        ensures { result.now ≡ slice_index_or (plan_in player (bounds_in self.now.certificate)).weights (set - 1) [] }
    {
        self.plan(player).weights(set)
    }

    /// The numbers of all sequences in a player's plan, the root first.
    pub fn numbers(&self, player: Player) -> &[u64]
        requires { 1 ≤ self.now.certificate.head.rounds }
        ensures { result.now ≡ printed_numbers (plan_in player (bounds_in self.now.certificate)) }
    {
        self.plan(player).numbers()
    }

    /// The total of a player's reply.
    pub fn total(&self, player: Player) -> i128
        requires { 1 ≤ self.now.certificate.head.rounds }
        ensures { result ≡ (reply_in player (bounds_in self.now.certificate)).total }
    {
        self.reply(player).total()
    }

    /// The value of a set in a player's reply.
    pub fn value(&self, player: Player, set: u32) -> i128
        requires asked { 1 ≤ self.now.certificate.head.rounds }
        requires from_one { 1 ≤ set }
        requires there { set ≤ set_count_in player self.now.certificate.head }
        ensures { slice_get (values_of (reply_in player (bounds_in self.now.certificate)).sets) (set - 1)
            ≡ Some result }
    {
        self.reply(player).values()[set as usize - 1]
    }

    /// The values of all sets in a player's reply, in the order of the sets.
    pub fn values(&self, player: Player) -> &[i128]
        requires { 1 ≤ self.now.certificate.head.rounds }
        ensures { result.now ≡ values_of (reply_in player (bounds_in self.now.certificate)).sets }
    {
        self.reply(player).values()
    }

    /// The action that a player's reply chooses at a set, counted from 1.
    pub fn choice(&self, player: Player, set: u32) -> u32
        requires asked { 1 ≤ self.now.certificate.head.rounds }
        requires from_one { 1 ≤ set }
        requires there { set ≤ set_count_in player self.now.certificate.head }
        ensures { slice_get (choices_of (reply_in player (bounds_in self.now.certificate)).sets) (set - 1)
            ≡ Some result }
    {
        self.reply(player).choices()[set as usize - 1]
    }

    /// The choices of a player's reply at all sets, in the order of the sets.
    pub fn choices(&self, player: Player) -> &[u32]
        requires { 1 ≤ self.now.certificate.head.rounds }
        ensures { result.now ≡ choices_of (reply_in player (bounds_in self.now.certificate)).sets }
    {
        self.reply(player).choices()
    }

    /// The floor of player one's plan in payoff units.
    pub fn low(&self) -> Ratio
        requires { 1 ≤ self.now.certificate.head.rounds }
        ensures { result ≡ (bounds_in self.now.certificate).low }
    {
        self.bounds().low
    }

    /// The ceiling of player two's plan in payoff units.
    pub fn high(&self) -> Ratio
        requires { 1 ≤ self.now.certificate.head.rounds }
        ensures { result ≡ (bounds_in self.now.certificate).high }
    {
        self.bounds().high
    }

    /// The bracket of player two's own payoff in payoff units, which version 2 has.
    pub fn second(&self) -> Option<(Ratio, Ratio)>
        requires { 1 ≤ self.now.certificate.head.rounds }
        ensures value { second_where_given result ≡ self.now.second }
        ensures version { (result ≡ None) ↔ (self.now.version ≡ versions.One) }
    {
        self.lines.second
    }

    fn bounds(&self) -> &BoundsLines
        requires { 1 ≤ self.now.certificate.head.rounds }
        ensures there { self.now.certificate.bounds ≡ Some (bounds_of result.now) }
        ensures within { BoundsFit self.now.certificate.head (bounds_of result.now) }
    {
        match &self.lines.bounds {
            Some(bounds) => bounds,
            None => unreachable!(),
        }
    }

    fn plan(&self, player: Player) -> &PlanLines
        requires { 1 ≤ self.now.certificate.head.rounds }
        ensures value { result.now ≡ plan_in player (bounds_in self.now.certificate) }
        ensures sets { length result.now.weights ≡ set_count_in player self.now.certificate.head }
        ensures some { All PlanWeightsFit result.now.weights }
    {
        match player {
            Player::One => &self.bounds().plan_one,
            Player::Two => &self.bounds().plan_two,
        }
    }

    fn reply(&self, player: Player) -> &ReplyLines
        requires { 1 ≤ self.now.certificate.head.rounds }
        ensures value { result.now ≡ reply_in player (bounds_in self.now.certificate) }
        ensures sets { length result.now.sets ≡ set_count_in player self.now.certificate.head }
    {
        match player {
            Player::One => &self.bounds().reply_one,
            Player::Two => &self.bounds().reply_two,
        }
    }
}
