//! How far a search closes the brackets of games whose values are known.
ghost use Rattle.std.specs.Prelude.{◌≡◌, IfOk};
ghost use Rattle.def_game_numbers.specs.Weighed.{weighed_game};
ghost use Rattle.xg_jobs.specs.Table.{HasLeavesOf};
ghost use Rattle.xg_search.specs.Searches.{IsSearchOf};

use std::alloc::{AllocError, Global};
use std::process::Abort;
use std::test::Fail;
use xg_game::Game;
use xg_jobs::JobTable;
use xg_numbers::Numbers;
use xg_read::{MOST_BYTES, read_game};
use xg_search::Search;
use xg_seq::SeqForm;
use xg_test_data::files::{ONE_LEAF, ONE_MOVER, PENNIES, POKER_OF_THREE};

/// A game of the payoffs 3, -1, -1 and 1, times a number that makes its mass nearly 2^62. The value is a third of it.
const GREAT: &str = r#"EFG 2 R "Great" { "A" "B" }
p "" 1 1 "a" { "H" "T" } 0
p "" 2 1 "b" { "h" "t" } 0
t "" 1 { 2305843009213693950, -2305843009213693950 }
t "" 2 { -768614336404564650, 768614336404564650 }
p "" 2 1 0
t "" 2
t "" 3 { 768614336404564650, -768614336404564650 }
"#;

/// A game whose payoffs are all the same.
const CONSTANT: &str = r#"EFG 2 R "Constant" { "A" "B" }
p "" 1 1 "a" { "L" "R" } 0
p "" 2 1 "b" { "l" "r" } 0
t "" 1 { 3, -3 }
t "" 1
p "" 2 1 0
t "" 1
t "" 1
"#;

/// The root of the plans.
const ROOT: i128 = 1 << 36;

/// The bounds after some evaluations, and how many rounds were played up to then.
#[derive(Clone, Copy, Debug, PartialEq, Eq, Drop)]
struct Bounds {
    low: i128,
    high: i128,
    rounds: u32,
}

fn table_of(alloc: Global, game: &Game, numbers: &Numbers) -> Result<JobTable, AllocError>
    requires { numbers.now ≡ weighed_game game.now }
    ensures { IfOk result (HasLeavesOf numbers.now.form) }
{
    JobTable::without_rows(alloc, numbers.form(), game.tree())
}

fn advance(form: &SeqForm, jobs: &JobTable, evaluations: u32, search: &mut Search) -> u32
    requires search { IsSearchOf form.now search.old }
    requires table { HasLeavesOf form.now jobs.now }
{
    let mut rounds = 0u32;
    for _ in 0..evaluations {
        rounds = rounds.saturating_add(search.advance(form, jobs, 1_000));
    }
    rounds
}

fn bounds_by(
    alloc: Global,
    form: &SeqForm,
    jobs: &JobTable,
    evaluations: u32,
) -> Result<Bounds, AllocError>
    requires { HasLeavesOf form.now jobs.now }
{
    let mut search = Search::new(alloc, form, jobs)?;
    let rounds = advance(form, jobs, evaluations, &mut search);
    let (low, high) = (search.low(), search.high());
    let (lower, upper) = search.into_ends();
    let ends = Bounds {
        low: lower.reply.total(),
        high: upper.reply.total(),
        rounds,
    };
    drop(lower);
    drop(upper);
    Ok(Bounds { low, high, ..ends })
}

fn bounds_in(
    alloc: Global,
    game: &Game,
    numbers: &Numbers,
    evaluations: u32,
) -> Result<Bounds, AllocError>
    requires { numbers.now ≡ weighed_game game.now }
{
    let jobs = table_of(alloc, game, numbers)?;
    let bounds = bounds_by(alloc, numbers.form(), &jobs, evaluations);
    drop(jobs);
    bounds
}

fn bounds_of_game(alloc: Global, game: &Game, evaluations: u32) -> Result<Bounds, Fail> {
    let numbers = Numbers::open(alloc, game)?;
    let bounds = bounds_in(alloc, game, &numbers, evaluations);
    drop(numbers);
    Ok(bounds?)
}

fn bounds_after(
    rt: &impl Abort,
    alloc: Global,
    file: &str,
    evaluations: u32,
) -> Result<Bounds, Fail> {
    assert!(rt; file.len() <= MOST_BYTES);
    let game = read_game(alloc, file.as_bytes())?;
    let bounds = bounds_of_game(alloc, &game, evaluations);
    drop(game);
    bounds
}

/// Whether the value times unit times root lies within the bounds, and these are no further apart than asked.
fn close(bounds: Bounds, value: i128, width: i128) -> bool {
    bounds.low <= value && value <= bounds.high && bounds.high.saturating_sub(bounds.low) <= width
}

#[test]
fn poker_closes(rt: HostRuntime) -> Result<(), Fail> {
    // the value is -1/18 and the unit 6; a billionth of the range is 4 * 6 * 2^36 / 10^9
    let bounds = bounds_after(&rt, rt.alloc(), POKER_OF_THREE, 30)?;
    assert!(rt; close(bounds, -ROOT / 3, 1_649), "{bounds:?}");
    Ok(())
}

#[test]
fn small_games_close(rt: HostRuntime) -> Result<(), Fail> {
    let pennies = bounds_after(&rt, rt.alloc(), PENNIES, 1)?;
    let mover = bounds_after(&rt, rt.alloc(), ONE_MOVER, 30)?;
    let leaf = bounds_after(&rt, rt.alloc(), ONE_LEAF, 1)?;
    let constant = bounds_after(&rt, rt.alloc(), CONSTANT, 1)?;
    assert!(rt;
        close(pennies, 0, 0) && close(mover, ROOT, 0),
        "{pennies:?} {mover:?}"
    );
    assert!(rt;
        close(leaf, 0, 0) && close(constant, 3 * ROOT, 0),
        "{leaf:?} {constant:?}"
    );
    assert!(rt; leaf.rounds == 10, "a lane is evaluated after 10 rounds");
    Ok(())
}

#[test]
fn great_payoffs_close(rt: HostRuntime) -> Result<(), Fail> {
    let bounds = bounds_after(&rt, rt.alloc(), GREAT, 30)?;
    // a billionth of the range
    let width = 3_074_457_345 * ROOT;
    assert!(rt;
        close(bounds, 256_204_778_801_521_550 * ROOT, width),
        "{bounds:?}"
    );
    Ok(())
}
