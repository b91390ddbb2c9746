//! The sets of a game.
ghost use Rattle.std.specs.Prelude.{◌≡◌, ◌≢◌, ◌+◌, ◌<◌, ◌^◌, false, [], ◌∷◌, ◌++◌, length, option_map, slice_set, All};
ghost use Rattle.std.specs.Prelude.{Some, None, OnErr, OnOk, IfSome};
ghost use Rattle.def_file.specs.Adding as adding;
ghost use Rattle.def_file.specs.Content.{SetEntry, sets_of_kind, with_sets, set_mention};
ghost use Rattle.def_file.specs.Faults as faults;
ghost use Rattle.def_file.specs.Game.{IsSmallFraction, chances_of};
ghost use Rattle.xg_record.specs.Entry.{actions_seen, entry_seen};

use crate::actions::{ActionList, KeptActions, Span};
use crate::given::{name_differs, same_actions};
use crate::table::NumberTable;
use std::alloc::{AllocError, Global};
use std::marker::Model;
use xg_lex::{Text, TextView};
use xg_record::{EntryActions, EntryView, view_again};
use xg_tree::Kind;

/// What is known of a set: the first name that is given, and the actions of the first mention.
#[derive(Drop)]
pub(crate) struct SetDescription<'a> {
    pub(crate) name: &'a Option<Text>,
    pub(crate) actions: ActionList<'a>,
}

/// The sets of chance or of a player by their numbers in the file, in the order of their first mentions.
#[derive(Drop)]
pub(crate) struct SetsOfKind {
    sets: NumberTable<Span>,
    actions: KeptActions,
}

impl Model for SetsOfKind {
    ghost use Rattle.std.specs.Prelude.{List, length, map};
    ghost use Rattle.def_file.specs.Content.{SetEntry};

    ghost Value = { List SetEntry };

    ghost use Rattle.xg_game.specs.Sets.{SpansAreWithin, set_of};

    ghost view = { λ t. map (set_of t.actions) t.sets };

    ghost invariant = { λ t. SpansAreWithin (length t.actions) t.sets };
}

impl SetsOfKind {
    /// No sets.
    pub(crate) fn new(alloc: Global) -> SetsOfKind
        ensures { result ≡ [] }
    {
        SetsOfKind {
            sets: NumberTable::new(alloc),
            actions: KeptActions::new(alloc),
        }
    }

    /// How many sets there are.
    pub(crate) fn len(&self) -> usize
        ensures { result ≡ length self.now }
    {
        self.sets.len()
    }

    /// Each probability is in lowest terms and within the limit: what the actions keep.
    pub(crate) fn chances_are_small(&self)
        ensures { All (λ entry. All IsSmallFraction (chances_of entry)) self.now }
    {
        self.actions.chances_are_small();
    }

    /// Where the set of this number is.
    pub(crate) fn find(&self, number: u64) -> Option<usize>
        ensures place { result ≡ faults.set_place_of number self.now }
        ensures within { IfSome result (λ i. i < length self.now) }
    {
        self.sets.find(number)
    }

    /// The number in the file of the set at `i`.
    pub(crate) fn number(&self, i: usize) -> u64
        requires { i < length self.now }
        ensures { result ≡ (faults.set_at self.now i).number }
    {
        self.sets.number(i)
    }

    /// What is known of the set at `i`.
    #[inline(always)]
    pub(crate) fn get(&self, i: usize) -> SetDescription<'_>
        requires { i < length self.now }
        ensures name { result.name.now ≡ (faults.set_at self.now i).name }
        ensures actions { result.actions ≡ (faults.set_at self.now i).actions }
    {
        let known = self.sets.get(i);
        SetDescription {
            name: &known.name,
            actions: self.actions.of(known.value),
        }
    }

    /// Whether the entry has another name or other actions than are kept of its set.
    #[inline(always)]
    pub(crate) fn differs(&self, kind: Kind, entry: &EntryView<'_>, place: Option<usize>) -> bool
        requires { place ≡ faults.set_place_of entry.now.set self.now }
        ensures { result ≡ faults.set_differs kind self.now (entry_seen entry.now).set }
    {
        match place {
            Some(i) => {
                let kept = self.get(i);
                name_differs(kept.name, &entry.set_name)
                    || match &entry.actions {
                        Some(given) => !same_actions(kind, &kept.actions, given),
                        None => false,
                    }
            }
            None => false,
        }
    }

    /// The number of the entry's set among those of the table, which count from 1.
    #[inline(always)]
    pub(crate) fn number_with(&self, entry: &EntryView<'_>, place: Option<usize>) -> u32
        requires place { place ≡ faults.set_place_of entry.now.set self.now }
        requires room { length self.now + 1 < 2 ^ 32 }
        ensures { result ≡ adding.set_number self.now (entry_seen entry.now).set }
    {
        place.unwrap_or(self.len()) as u32 + 1
    }

    /// How many actions the entry's set has.
    #[inline(always)]
    pub(crate) fn action_count_with(&self, entry: &EntryView<'_>, place: Option<usize>) -> u32
        requires place { place ≡ faults.set_place_of entry.now.set self.now }
        requires few { adding.action_count self.now (entry_seen entry.now).set < 2 ^ 32 }
        ensures { result ≡ adding.action_count self.now (entry_seen entry.now).set }
    {
        match place {
            Some(i) => self.get(i).actions.len() as u32,
            None => match &entry.actions {
                Some(actions) => actions.len() as u32,
                None => 0,
            },
        }
    }

    /// Notes a mention of a set.
    #[inline(always)]
    pub(crate) fn note(
        &mut self,
        alloc: Global,
        file: &[u8],
        place: Option<usize>,
        number: u64,
        name: &Option<TextView<'_>>,
        actions: &Option<EntryActions<'_>>,
    ) -> Result<(), AllocError>
        requires place { place ≡ faults.set_place_of number self.old }
        requires defined { let mention = set_mention number name.now (option_map actions_seen actions.now) in
            faults.is_set_undefined self.old mention ≡ false }
        requires room { length self.old + 1 < 2 ^ 32 }
        ensures { let mention = set_mention number name.now (option_map actions_seen actions.now) in
            OnOk result (self.new ≡ adding.noted_set self.old mention) }
    {
        match place {
            Some(i) => self.sets.name(alloc, i, name),
            None => self.add(
                alloc,
                file,
                number,
                &view_again(name),
                &actions.as_ref().unwrap().again(),
            ),
        }
    }

    /// Puts a set last.
    #[inline(never)]
    fn add(
        &mut self,
        alloc: Global,
        file: &[u8],
        number: u64,
        name: &Option<TextView<'_>>,
        actions: &EntryActions<'_>,
    ) -> Result<(), AllocError>
        requires new { faults.set_place_of number self.old ≡ None }
        requires room { length self.old + 1 < 2 ^ 32 }
        ensures { let actions = actions_seen actions.now in
            let added : SetEntry = record { number = number; name = name.now; actions = actions } in
            OnOk result (self.new ≡ self.old ++ added ∷ []) }
    {
        let span = self.actions.add(alloc, actions)?;
        self.sets.push(alloc, file, number, name, span)
    }
}

/// The sets of chance and of each player.
#[derive(Drop)]
pub(crate) struct SetTables {
    chance: SetsOfKind,
    one: SetsOfKind,
    two: SetsOfKind,
}

impl Model for SetTables {
    ghost use Rattle.def_file.specs.Content as content;

    ghost Value = { content.SetTables };

    ghost view = { λ t. record { chance = t.chance; one = t.one; two = t.two } };
}

impl SetTables {
    /// No sets.
    pub(crate) fn new(alloc: Global) -> SetTables
        ensures { result ≡ record { chance = []; one = []; two = [] } }
    {
        SetTables {
            chance: SetsOfKind::new(alloc),
            one: SetsOfKind::new(alloc),
            two: SetsOfKind::new(alloc),
        }
    }

    /// The sets of a kind.
    #[inline(always)]
    pub(crate) fn of(&self, kind: Kind) -> &SetsOfKind
        requires { kind ≢ Kind.Leaf }
        ensures { result.now ≡ sets_of_kind kind self.now }
    {
        match kind {
            Kind::Chance => &self.chance,
            Kind::One => &self.one,
            Kind::Two => &self.two,
            Kind::Leaf => unreachable!(),
        }
    }

    /// Where the set of a kind and number is. A leaf is in no set.
    pub(crate) fn find(&self, kind: Kind, number: u64) -> Option<usize>
        ensures { result ≡ faults.set_place_of number (sets_of_kind kind self.now) }
    {
        match kind {
            Kind::Chance => self.chance.find(number),
            Kind::One => self.one.find(number),
            Kind::Two => self.two.find(number),
            Kind::Leaf => None,
        }
    }

    /// Notes a mention of a set of a kind. A leaf is in no set.
    #[inline(always)]
    pub(crate) fn note(
        &mut self,
        alloc: Global,
        file: &[u8],
        kind: Kind,
        place: Option<usize>,
        number: u64,
        name: &Option<TextView<'_>>,
        actions: &Option<EntryActions<'_>>,
    ) -> Result<(), AllocError>
        requires place { place ≡ faults.set_place_of number (sets_of_kind kind self.old) }
        requires defined { let mention = set_mention number name.now (option_map actions_seen actions.now) in
            kind ≢ Kind.Leaf → faults.is_set_undefined (sets_of_kind kind self.old) mention ≡ false }
        requires room { length (sets_of_kind kind self.old) + 1 < 2 ^ 32 }
        ensures { let mention = set_mention number name.now (option_map actions_seen actions.now) in
            let table = adding.noted_set (sets_of_kind kind self.old) mention in
            OnOk result (self.new ≡ with_sets kind table self.old) }
    {
        match kind {
            Kind::Chance => self.chance.note(alloc, file, place, number, name, actions),
            Kind::One => self.one.note(alloc, file, place, number, name, actions),
            Kind::Two => self.two.note(alloc, file, place, number, name, actions),
            Kind::Leaf => Ok(()),
        }
    }
}
