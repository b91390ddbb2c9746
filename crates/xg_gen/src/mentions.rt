//! The sets and the outcomes of one-card poker.
ghost use Rattle.std.specs.Prelude.{◌≡◌, ◌≤◌, [], ◌∷◌, ◌++◌, map, Some, IfOk, OnOk, IsTrue};
ghost use Rattle.def_fraction.specs.Fraction.{fits, whole_number};
ghost use Rattle.def_sums.specs.Limits.{most_cards};
ghost use Rattle.def_file.specs.Content.{named_action};
ghost use Rattle.def_canon.specs.Poker as def;
ghost use Rattle.xg_record.specs.Action.{action_of};
ghost use Rattle.xg_gen.specs.Described.{mention_of_outcome};
ghost use Rattle.xg_gen.specs.Plain.{is_plain};

use crate::texts::{numbered, plain};
use std::alloc::{AllocError, Global};
use xg_frac::{Frac, one_over, whole};
use xg_lex::{Text, TextView};
use xg_record::{Action, Actions, Payoffs};

/// A set's number and its name. Its actions stand apart, since many sets have the same.
#[derive(Drop)]
pub struct NamedSet {
    pub number: u64,
    pub name: Text,
}

/// An outcome with its whole description.
#[derive(Drop)]
pub struct DescribedOutcome {
    pub number: u64,
    pub name: TextView<'static>,
    pub payoffs: Payoffs,
}

/// A whole number within the limit.
fn number(n: i64) -> Frac
    requires { IsTrue (fits (whole_number n)) }
    ensures { result ≡ whole_number n }
{
    whole(n).unwrap()
}

/// Each card but one, which is 0 where all are dealt, as one of so many that are as likely.
pub(crate) fn dealt_cards(
    alloc: Global,
    n: u32,
    without: u32,
    choices: u32,
) -> Result<Actions, AllocError>
    requires high { n ≤ most_cards }
    requires choices { 1 ≤ choices }
    ensures { IfOk result (λ actions. actions ≡ map (def.dealt_card choices) (def.others n without)) }
{
    let mut actions = Actions::new(alloc);
    'cards: for card in 1..n + 1 {
        push_other(alloc, &mut actions, without, choices, card)?;
    }
    Ok(actions)
}

/// A card, unless it is the one that is left out.
fn push_other(
    alloc: Global,
    actions: &mut Actions,
    without: u32,
    choices: u32,
    card: u32,
) -> Result<(), AllocError>
    requires { 1 ≤ choices }
    ensures { OnOk result (actions.new ≡ actions.old ++ map (def.dealt_card choices)
        (def.cards_without without (card ∷ []))) }
{
    if without != card {
        let name = numbered(alloc, b"", card, b"")?;
        let chance = one_over(choices);
        actions.push(Action { name, chance })?;
    }
    Ok(())
}

/// Two actions of a player.
pub(crate) fn two_moves(alloc: Global, first: &[u8], second: &[u8]) -> Result<Actions, AllocError>
    requires first { IsTrue (is_plain first.now) }
    requires second { IsTrue (is_plain second.now) }
    ensures { IfOk result (λ actions. actions ≡ named_action first.now ∷ named_action second.now ∷ []) }
{
    let mut actions = Actions::new(alloc);
    actions.push(player_move(alloc, first)?)?;
    actions.push(player_move(alloc, second)?)?;
    Ok(actions)
}

fn player_move(alloc: Global, name: &[u8]) -> Result<Action, AllocError>
    requires { IsTrue (is_plain name.now) }
    ensures { IfOk result (λ action. action_of action ≡ named_action name.now) }
{
    Ok(Action {
        name: plain(alloc, name)?,
        chance: number(0),
    })
}

/// An outcome with these payoffs to player one and player two.
#[tactic(auto, using(crate::proofs::PlainBytesStay::plain_stays))]
pub(crate) fn outcome(
    alloc: Global,
    number_of: u64,
    name: &'static [u8],
    one: i64,
    two: i64,
) -> Result<DescribedOutcome, AllocError>
    requires name { IsTrue (is_plain name.now) }
    requires one { IsTrue (fits (whole_number one)) }
    requires two { IsTrue (fits (whole_number two)) }
    ensures { let payoffs = whole_number one ∷ whole_number two ∷ [] in
        IfOk result (λ outcome. mention_of_outcome outcome
        ≡ record { number = number_of; name = Some name.now; payoffs = Some payoffs }) }
{
    let mut payoffs = Payoffs::new(alloc);
    payoffs.push(number(one))?;
    payoffs.push(number(two))?;
    Ok(DescribedOutcome {
        number: number_of,
        name: TextView::of(name),
        payoffs,
    })
}
