//! One-card poker.
ghost use Rattle.std.specs.Prelude.{◌≡◌, ◌-◌, ◌≤◌, [], ◌∷◌, map, codes, IfOk, OnOk};
ghost use Rattle.def_fraction.specs.Fraction.{most};
ghost use Rattle.def_sums.specs.Limits.{least_cards, most_cards};
ghost use Rattle.def_file.specs.Content.{chance_record};
ghost use Rattle.def_canon.specs.Poker as def;
ghost use Rattle.xg_gen.specs.Again.{AreCommon, ArePlayerSets};
ghost use Rattle.xg_gen.specs.Described.{mention_of_set};
ghost use Rattle.xg_gen.specs.Taken.{GainsEntries, Takes};

use crate::again::{Common, PlayerSets};
use crate::entries::{Entry, put_all, put_entry};
use crate::mentions::{NamedSet, dealt_cards};
use crate::texts::{numbered, plain};
use std::alloc::{AllocError, Global};
use xg_game::{Game, GameMaker};
use xg_record::EntryKind;

/// One-card poker with `n` cards: both players put in 1 and get a card each, and then check, bet, fold or call.
pub fn one_card_poker(alloc: Global, n: u32) -> Result<Game, AllocError>
    requires low { least_cards ≤ n }
    requires high { n ≤ most_cards }
    ensures { IfOk result (λ game. game ≡ def.poker n) }
{
    let title = numbered(alloc, b"One-card poker ", n, b"")?;
    let one = plain(alloc, b"One")?;
    let two = plain(alloc, b"Two")?;
    let comment = plain(alloc, b"")?;
    let mut maker = GameMaker::new(alloc, title, one, two, comment);
    match put_entries(&mut maker, alloc, n) {
        Ok(()) => Ok(maker.finish()),
        Err(error) => {
            maker.discard();
            Err(error)
        }
    }
}

/// All entries.
fn put_entries(maker: &mut GameMaker, alloc: Global, n: u32) -> Result<(), AllocError>
    requires low { least_cards ≤ n }
    requires high { n ≤ most_cards }
    requires takes { Takes maker.old (def.entries n) }
    ensures { OnOk result (GainsEntries maker.old maker.new (def.entries n)) }
{
    let name = plain(alloc, b"deal one")?;
    put_deal(maker, alloc, NamedSet { number: 1, name }, n, 0, n)?;
    let common = Common::new(alloc)?;
    put_rounds(maker, alloc, n, &common)
}

/// Chance deals a card other than this one, out of so many.
fn put_deal(
    maker: &mut GameMaker,
    alloc: Global,
    set: NamedSet,
    n: u32,
    without: u32,
    choices: u32,
) -> Result<(), AllocError>
    requires high { n ≤ most_cards }
    requires choices { 1 ≤ choices }
    requires from_one { 1 ≤ set.number }
    requires set { set.number ≤ most }
    requires takes { let actions = map (def.dealt_card choices) (def.others n without) in
        Takes maker.old (chance_record (mention_of_set set actions) ∷ []) }
    ensures { let actions = map (def.dealt_card choices) (def.others n without) in
        OnOk result (GainsEntries maker.old maker.new (chance_record (mention_of_set set actions) ∷ [])) }
{
    let actions = dealt_cards(alloc, n, without, choices)?;
    put_entry(maker, Entry::Move(EntryKind::Chance, 0, &set, &actions))
}

/// Each card for player one, and all that follows.
fn put_rounds(
    maker: &mut GameMaker,
    alloc: Global,
    n: u32,
    common: &Common,
) -> Result<(), AllocError>
    requires low { least_cards ≤ n }
    requires high { n ≤ most_cards }
    requires common { AreCommon common.now }
    requires takes { Takes maker.old (def.rounds_with_cards n (def.cards n)) }
    ensures { OnOk result (GainsEntries maker.old maker.new (def.rounds_with_cards n (def.cards n))) }
{
    'rounds: for i in 1..n + 1 {
        put_round(maker, alloc, n, i, common)?;
    }
    Ok(())
}

/// Card `i` for player one, and all that follows.
fn put_round(
    maker: &mut GameMaker,
    alloc: Global,
    n: u32,
    i: u32,
    common: &Common,
) -> Result<(), AllocError>
    requires low { least_cards ≤ n }
    requires high { n ≤ most_cards }
    requires card { 1 ≤ i }
    requires there { i ≤ n }
    requires common { AreCommon common.now }
    requires takes { Takes maker.old (chance_record (def.deal_two n i) ∷ def.hands n i (def.others n i)) }
    ensures { OnOk result (GainsEntries maker.old maker.new
        (chance_record (def.deal_two n i) ∷ def.hands n i (def.others n i))) }
{
    let name = numbered(alloc, b"deal two ", i, b"")?;
    let number = 1 + i as u64;
    put_deal(maker, alloc, NamedSet { number, name }, n, i, n - 1)?;
    let own = PlayerSets::of(alloc, n, i, b"", b" cb")?;
    put_hands(maker, alloc, n, i, &own, &*common)
}

/// The play of player one's card `i` against each other card.
fn put_hands<'a>(
    maker: &mut GameMaker,
    alloc: Global,
    n: u32,
    i: u32,
    own: &'a PlayerSets,
    common: &'a Common,
) -> Result<(), AllocError>
    requires low { least_cards ≤ n }
    requires high { n ≤ most_cards }
    requires card { 1 ≤ i }
    requires there { i ≤ n }
    requires own { ArePlayerSets n i [] (codes " cb") own.now }
    requires common { AreCommon common.now }
    requires takes { Takes maker.old (def.hands n i (def.others n i)) }
    ensures { OnOk result (GainsEntries maker.old maker.new (def.hands n i (def.others n i))) }
{
    'hands: for j in 1..n + 1 {
        put_hand(maker, alloc, n, i, j, own, common)?;
    }
    Ok(())
}

/// The play where player one has card `i` and player two has card `j`, unless they are one.
fn put_hand<'a>(
    maker: &mut GameMaker,
    alloc: Global,
    n: u32,
    i: u32,
    j: u32,
    own: &'a PlayerSets,
    common: &'a Common,
) -> Result<(), AllocError>
    requires one { 1 ≤ i }
    requires two { 1 ≤ j }
    requires own { ArePlayerSets n i [] (codes " cb") own.now }
    requires common { AreCommon common.now }
    requires takes { Takes maker.old (def.hands n i (def.cards_without i (j ∷ []))) }
    ensures { OnOk result (GainsEntries maker.old maker.new (def.hands n i (def.cards_without i (j ∷ [])))) }
{
    if i == j {
        return Ok(());
    }
    let other = PlayerSets::of(alloc, n, j, b" c", b" b")?;
    let won = common.higher(i, j);
    let entries = [
        Entry::Move(
            EntryKind::Personal,
            1,
            &own.before_bet,
            &common.check_or_bet,
        ),
        Entry::Move(
            EntryKind::Personal,
            2,
            &other.before_bet,
            &common.check_or_bet,
        ),
        Entry::End(&won.one),
        Entry::Move(
            EntryKind::Personal,
            1,
            &own.facing_bet,
            &common.fold_or_call,
        ),
        Entry::End(&common.by_two.one),
        Entry::End(&won.two),
        Entry::Move(
            EntryKind::Personal,
            2,
            &other.facing_bet,
            &common.fold_or_call,
        ),
        Entry::End(&common.by_one.one),
        Entry::End(&won.two),
    ];
    put_all(maker, &entries)
}
