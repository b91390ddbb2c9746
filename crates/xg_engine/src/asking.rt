//! What is asked of a game.
ghost use Rattle.std.specs.Prelude.{◌≡◌, ◌≤◌};
ghost use Rattle.def_fraction.specs.Fraction.{most};
ghost use Rattle.def_game_numbers.specs.WholeSums.{HasWholeSum};
ghost use Rattle.xg_outcome.specs.Outcome.{head_of};
ghost use Rattle.xg_engine.specs.State.{head_with};

use def_command::Settings;
use xg_numbers::Numbers;
use xg_outcome::Head;
use xg_plan::Player;

/// A game's numbers, with what is asked.
pub fn head_with(numbers: &Numbers, settings: Settings) -> Head
    ensures exact { head_of result ≡ head_with numbers.now settings }

    // What is true of all numbers.
    ensures positive { 1 ≤ numbers.now.unit }
    ensures limit { numbers.now.unit ≤ most }
    ensures whole_sum { HasWholeSum numbers.now }
{
    numbers.facts();
    let form = numbers.form();
    Head {
        nodes: numbers.nodes(),
        leaves: form.leaf_count(),
        sets: (form.set_count(Player::One), form.set_count(Player::Two)),
        sequences: (
            form.sequence_count(Player::One),
            form.sequence_count(Player::Two),
        ),
        unit: numbers.unit(),
        sum: numbers.sum(),
        mass: numbers.mass(),
        rounds: settings.rounds,
        every: settings.every,
        scale: settings.scale,
    }
}
