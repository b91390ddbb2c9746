//! The numbers of a game.
ghost use Rattle.std.specs.Prelude.{◌≡◌, ◌≤◌, length, Err, IfOk, None, Ok, OnOk, Some};
ghost use Rattle.def_file.specs.declared.FileFault.{FileFault};
ghost use Rattle.def_fraction.specs.Fraction.{most};
ghost use Rattle.def_game_numbers.specs.Numbers.{game_file_fault};
ghost use Rattle.def_game_numbers.specs.WholeSums.{HasWholeSum};
ghost use Rattle.def_plan.specs.Payoff.{mass_of};
ghost use Rattle.def_sequence_form.specs.Form.{form_of};
ghost use Rattle.def_sequence_form.specs.Sets.{sets_or_break};
ghost use Rattle.def_tree.specs.Tree.{leaf_count, prefix};
ghost use Rattle.xg_numbers.specs.Opened.{HasSets, IsBreakOf};
ghost use Rattle.def_game_numbers.specs.Weighed.{weighed_game};

use std::alloc::Global;
use std::marker::Model;
use xg_frac::Frac;
use xg_game::{FileFault, Game, Refused};
use xg_scale::{Weights, weigh};
use xg_seq::SeqForm;
use xg_sets::{RecallFault, Sets, build_sets};
use xg_tree::Tree;

/// A game in numbers: how many nodes it has, what each leaf pays both players together, and its sequence form with the
/// unit and the mass of its weights. In the unit the sum is whole.
#[derive(Drop)]
pub struct Numbers {
    form: SeqForm,
    nodes: u32,
    sum: Frac,
    unit: u64,
    mass: u64,
}

impl Model for Numbers {
    ghost use Rattle.def_plan.specs.Weighed.{WeighedGame};
    ghost use Rattle.xg_numbers.specs.Opened.{KeepsNumbers};

    ghost Value = { WeighedGame };

    ghost view = { λ n. record { nodes = n.nodes; sum = n.sum; unit = n.unit; form = n.form } };

    ghost invariant = { λ n. KeepsNumbers n.form n.sum n.unit n.mass };
}

impl Numbers {
    /// The game in numbers, or its first fault: of the probabilities, payoffs and weights, and then of recall.
    pub fn open(alloc: Global, game: &Game) -> Result<Numbers, Refused>
        ensures opened { IfOk result (λ numbers. numbers ≡ weighed_game game.now) }
        ensures faultless { IfOk result (λ _. game_file_fault game.now ≡ None) }
        ensures refused { (fault : FileFault) → result ≡ Err (Refused.File fault)
            → game_file_fault game.now ≡ Some fault }
    {
        // What is true of each game, by which the sum of an accepted one is whole.
        game.numbers_are_in_lowest_terms();
        let weights = weigh(alloc, game)?;
        let form = form_of(alloc, game.tree(), &weights)?;
        Ok(Numbers {
            form,
            nodes: game.tree().len(),
            sum: weights.sum(),
            unit: weights.unit(),
            mass: weights.mass(),
        })
    }

    /// The same of a game that isn't needed any more. Its names, sets and outcomes are given back as soon as its leaves
    /// are weighed.
    pub fn of(alloc: Global, game: Game) -> Result<Numbers, Refused>
        ensures opened { IfOk result (λ numbers. numbers ≡ weighed_game game) }
        ensures faultless { IfOk result (λ _. game_file_fault game ≡ None) }
        ensures refused { (fault : FileFault) → result ≡ Err (Refused.File fault) → game_file_fault game ≡ Some fault }
    {
        // What is true of each game, by which the sum of an accepted one is whole.
        game.numbers_are_in_lowest_terms();
        let _tree = game.tree();
        let weighed = weigh(alloc, &game);
        let tree = game.into_tree();
        let weights = weighed?;
        let (sum, unit, mass) = (weights.sum(), weights.unit(), weights.mass());
        let form = form_of(alloc, &tree, &weights)?;
        let nodes = tree.len();
        Ok(Numbers {
            form,
            nodes,
            sum,
            unit,
            mass,
        })
    }

    /// The number of nodes.
    pub fn nodes(&self) -> u32
        ensures { result ≡ self.now.nodes }
    {
        self.nodes
    }

    /// What each leaf pays both players together.
    pub fn sum(&self) -> Frac
        ensures { result ≡ self.now.sum }
    {
        self.sum
    }

    /// The number by which reach times payoff is multiplied.
    pub fn unit(&self) -> u64
        ensures unit { result ≡ self.now.unit }

        // What is true of all numbers.
        ensures positive { 1 ≤ result }
        ensures limit { result ≤ most }
    {
        self.unit
    }

    /// Does nothing: its clauses are what is true of all numbers.
    pub fn facts(&self)
        ensures positive { 1 ≤ self.now.unit }
        ensures limit { self.now.unit ≤ most }
        ensures whole_sum { HasWholeSum self.now }
    {
        let _unit = self.unit;
    }

    /// The sum of the sizes of the weights.
    pub fn mass(&self) -> u64
        ensures { result ≡ mass_of self.now.form.leaves }
    {
        self.mass
    }

    /// The sequence form.
    pub fn form(&self) -> &SeqForm
        ensures { result.now ≡ self.now.form }
    {
        &self.form
    }
}

/// The sets of a tree, where its players remember their choices.
fn sets_of(alloc: Global, tree: &Tree) -> Result<Sets, Refused>
    ensures sets { IfOk result (λ sets. sets_or_break tree.now ≡ Ok sets) }
    ensures broken { (fault : FileFault) → result ≡ Err (Refused.File fault) → IsBreakOf tree.now fault }
{
    match build_sets(alloc, tree) {
        Ok(sets) => Ok(sets),
        Err(RecallFault::NotRecall { node, earlier }) => {
            Err(Refused::File(FileFault::NotRecall { node, earlier }))
        }
        Err(RecallFault::NoMemory) => Err(Refused::NoMemory),
    }
}

/// The sequence form of a tree with these weights, where its players remember their choices.
fn form_of(alloc: Global, tree: &Tree, weights: &Weights) -> Result<SeqForm, Refused>
    requires count { length weights.now.leaves ≡ leaf_count (prefix tree.now) }
    ensures form { IfOk result (λ form. form ≡ form_of tree.now weights.now.leaves) }
    ensures recalled { OnOk result (HasSets tree.now) }
    ensures broken { (fault : FileFault) → result ≡ Err (Refused.File fault) → IsBreakOf tree.now fault }
{
    let sets = sets_of(alloc, tree)?;
    match SeqForm::of(alloc, tree, sets, weights.leaves()) {
        Ok(form) => Ok(form),
        Err(_) => Err(Refused::NoMemory),
    }
}
