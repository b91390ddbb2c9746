//! A game.
ghost use Rattle.std.specs.Prelude.{◌≡◌, ◌≢◌, ◌≤◌, ◌-◌, Some, length, option_map, slice_get};
ghost use Rattle.def_file.specs.Content.{game_with, sets_of_kind};
ghost use Rattle.def_file.specs.Faults.{outcome_at, set_at};
ghost use Rattle.def_tree.specs.Rules.{most_actions};
ghost use Rattle.def_tree.specs.Tree.{node_count, wanted};
ghost use Rattle.xg_game.specs.Access.{name_of, outcome_numbered, payoff_to};
ghost use Rattle.def_file.specs.Game.{AreTogether, HasFractions, IsWholeGame};
ghost use Rattle.xg_game.specs.Prologues.{prologue_of};

use crate::outcomes::OutcomeTable;
use crate::prologue::Prologue;
use crate::sets::{SetDescription, SetTables};
use crate::tables::ContentTables;
use crate::texts::Texts;
use std::marker::Model;
use xg_frac::{Frac, zero};
use xg_lex::Text;
use xg_tree::{Kind, Player, Tree};

/// A game as its file gives it.
///
/// Nodes, the sets of a kind, the actions of a set and outcomes count from 1, and outcome 0 is the null outcome.
#[derive(Drop)]
pub struct Game {
    prologue: Prologue,
    tree: Tree,
    names: Texts,
    sets: SetTables,
    outcomes: OutcomeTable,
}

impl Model for Game {
    ghost use Rattle.std.specs.Coded.{codes};
    ghost use Rattle.def_tree.specs.Code.{forest_code};
    ghost use Rattle.def_file.specs.Content.{GameFile};

    ghost Value = { GameFile };

    ghost coded = { Prim.hlevel (codes, forest_code) };

    ghost use Rattle.def_file.specs.Game.{IsWholeGame};
    ghost use Rattle.xg_game.specs.Kept.{game_of};

    ghost view = { game_of };

    ghost invariant = { λ g. IsWholeGame (game_of g) };
}

impl Game {
    /// The game of a prologue and whole tables.
    pub(crate) fn of(prologue: Prologue, tables: ContentTables) -> Game
        requires complete { wanted 1 tables.nodes ≡ 0 }
        requires consistent { AreTogether tables }
        ensures { result ≡ game_with (prologue_of prologue) tables }
    {
        Game {
            prologue,
            tree: tables.nodes.finish(),
            names: tables.names,
            sets: tables.sets,
            outcomes: tables.outcomes,
        }
    }

    /// The tree alone. The names, the sets and the outcomes are given back.
    pub fn into_tree(self) -> Tree
        ensures { result ≡ self.tree }
    {
        let Game {
            prologue,
            tree,
            names,
            sets,
            outcomes,
        } = self;
        // By a call each: what the end of a function drops has code of its own for each table.
        drop(prologue);
        drop(names);
        drop(sets);
        drop(outcomes);
        tree
    }

    /// The tree of the game's nodes.
    pub fn tree(&self) -> &Tree
        ensures tree { result.now ≡ self.now.tree }

        // What is true of each game.
        ensures whole { IsWholeGame self.now }
    {
        &self.tree
    }

    /// Each probability and each payoff is in lowest terms and within the limit: what the tables keep.
    pub fn numbers_are_in_lowest_terms(&self)
        ensures { HasFractions self.now.sets self.now.outcomes }
    {
        self.sets.of(Kind::Chance).chances_are_small();
        self.outcomes.payoffs_are_small();
    }

    /// The title.
    pub fn title(&self) -> &[u8]
        ensures { result.now ≡ self.now.prologue.title }
    {
        self.prologue.title.bytes()
    }

    /// A player's name.
    pub fn player_name(&self, player: Player) -> &[u8]
        ensures { result.now ≡ name_of player self.now.prologue }
    {
        match player {
            Player::One => self.prologue.one.bytes(),
            Player::Two => self.prologue.two.bytes(),
        }
    }

    /// The comment, which is empty where there is none.
    pub fn comment(&self) -> &[u8]
        ensures { result.now ≡ self.now.prologue.comment }
    {
        self.prologue.comment.bytes()
    }

    /// The name of node `k`.
    pub fn node_name(&self, k: u32) -> &[u8]
        requires from_one { 1 ≤ k }
        requires there { k ≤ node_count self.now.tree }
        ensures { slice_get self.now.names (k - 1) ≡ Some result.now }
    {
        self.names.get(k as usize - 1)
    }

    /// How many sets of the kind there are.
    pub fn set_count(&self, kind: Kind) -> u32
        requires { kind ≢ Kind.Leaf }
        ensures { result ≡ length (sets_of_kind kind self.now.sets) }
    {
        self.sets.of(kind).len() as u32
    }

    /// The number that a set has in the file.
    pub fn set_number(&self, kind: Kind, set: u32) -> u64
        requires kind { kind ≢ Kind.Leaf }
        requires from_one { 1 ≤ set }
        requires there { set ≤ length (sets_of_kind kind self.now.sets) }
        ensures { result ≡ (set_at (sets_of_kind kind self.now.sets) (set - 1)).number }
    {
        self.sets.of(kind).number(set as usize - 1)
    }

    /// The first name that is given to a set.
    pub fn set_name(&self, kind: Kind, set: u32) -> Option<&[u8]>
        requires kind { kind ≢ Kind.Leaf }
        requires from_one { 1 ≤ set }
        requires there { set ≤ length (sets_of_kind kind self.now.sets) }
        ensures { let entry = set_at (sets_of_kind kind self.now.sets) (set - 1) in
            option_map (λ b. b.now) result ≡ entry.name }
    {
        bytes_of(self.set(kind, set).name)
    }

    /// How many actions a set has.
    pub fn action_count(&self, kind: Kind, set: u32) -> u32
        requires kind { kind ≢ Kind.Leaf }
        requires from_one { 1 ≤ set }
        requires there { set ≤ length (sets_of_kind kind self.now.sets) }
        ensures { result ≡ length (set_at (sets_of_kind kind self.now.sets) (set - 1)).actions }
    {
        self.set(kind, set).actions.len() as u32
    }

    /// The name of an action of a set.
    pub fn action_name(&self, kind: Kind, set: u32, action: u32) -> &[u8]
        requires kind { kind ≢ Kind.Leaf }
        requires from_one { 1 ≤ set }
        requires there { set ≤ length (sets_of_kind kind self.now.sets) }
        requires action_from_one { 1 ≤ action }
        requires action_there { let entry = set_at (sets_of_kind kind self.now.sets) (set - 1) in
            action ≤ length entry.actions }
        ensures { let actions = (set_at (sets_of_kind kind self.now.sets) (set - 1)).actions in
            option_map (λ a. a.name) (slice_get actions (action - 1)) ≡ Some result.now }
    {
        self.set(kind, set).actions.get(action as usize - 1).name
    }

    /// The probability of an action of a chance set.
    pub fn chance(&self, set: u32, action: u32) -> Frac
        requires from_one { 1 ≤ set }
        requires there { set ≤ length self.now.sets.chance }
        requires action_from_one { 1 ≤ action }
        requires action_there { action ≤ length (set_at self.now.sets.chance (set - 1)).actions }
        ensures { let actions = (set_at self.now.sets.chance (set - 1)).actions in
            option_map (λ a. a.chance) (slice_get actions (action - 1)) ≡ Some result }
    {
        self.set(Kind::Chance, set)
            .actions
            .get(action as usize - 1)
            .chance
    }

    /// How many outcomes there are, without the null outcome.
    pub fn outcome_count(&self) -> u32
        ensures { result ≡ length self.now.outcomes }
    {
        self.outcomes.len() as u32
    }

    /// The number that an outcome has in the file.
    pub fn outcome_number(&self, outcome: u32) -> u64
        requires from_one { 1 ≤ outcome }
        requires there { outcome ≤ length self.now.outcomes }
        ensures { result ≡ (outcome_at self.now.outcomes (outcome - 1)).number }
    {
        self.outcomes.number(outcome as usize - 1)
    }

    /// The first name that is given to an outcome.
    pub fn outcome_name(&self, outcome: u32) -> Option<&[u8]>
        requires from_one { 1 ≤ outcome }
        requires there { outcome ≤ length self.now.outcomes }
        ensures { let entry = outcome_at self.now.outcomes (outcome - 1) in
            option_map (λ b. b.now) result ≡ entry.name }
    {
        bytes_of(&self.outcomes.get(outcome as usize - 1).name)
    }

    /// The payoff of an outcome to a player, which is 0 at the null outcome.
    pub fn payoff(&self, outcome: u32, player: Player) -> Frac
        requires { outcome ≤ length self.now.outcomes }
        ensures { result ≡ payoff_to player (outcome_numbered outcome self.now.outcomes) }
    {
        if outcome == 0 {
            return zero();
        }
        let payoffs = &self.outcomes.get(outcome as usize - 1).value;
        match player {
            Player::One => payoffs.one,
            Player::Two => payoffs.two,
        }
    }

    /// What is known of a set.
    fn set(&self, kind: Kind, set: u32) -> SetDescription<'_>
        requires kind { kind ≢ Kind.Leaf }
        requires from_one { 1 ≤ set }
        requires there { set ≤ length (sets_of_kind kind self.now.sets) }
        ensures name { let entry = set_at (sets_of_kind kind self.now.sets) (set - 1) in
            result.name.now ≡ entry.name }
        ensures actions { let entry = set_at (sets_of_kind kind self.now.sets) (set - 1) in
            result.actions ≡ entry.actions }
        ensures few { length result.actions ≤ most_actions }
    {
        self.sets.of(kind).get(set as usize - 1)
    }
}

/// The bytes of a text, if there is one.
fn bytes_of(text: &Option<Text>) -> Option<&[u8]>
    ensures { option_map (λ b. b.now) result ≡ text.now }
{
    match text {
        Some(text) => Some(text.bytes()),
        None => None,
    }
}
