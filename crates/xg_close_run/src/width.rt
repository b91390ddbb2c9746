//! How wide a bracket may be.
ghost use Rattle.std.specs.Prelude.{◌≡◌, ◌↔◌, ◌≤◌, ◌*◌, ◌^◌, ◌≤ℤ◌, ◌*ℤ◌, pos, unsigned_abs, IfOk, IfSome, IsTrue};
ghost use Rattle.def_close.specs.Narrow.{AreAsNarrow};
ghost use Rattle.def_fraction.specs.Fraction.{most};
ghost use Rattle.def_fraction.specs.Order.{IsAtMost};
ghost use Rattle.def_cert_accepted.specs.Bounds.{difference};
ghost use Rattle.def_progress.specs.Decimals.{IsQuotientText};
ghost use Rattle.xg_close_lines.specs.Texts.{asked_text};
ghost use Rattle.def_sums.specs.Limits.{most_row};
ghost use Rattle.xg_close_run.specs.Searched.{IsGap, IsSmallWidth, width_of};
ghost use Rattle.xg_close_run.specs.Widths.{IsShown, IsUsualWidth, IsWidth, part_of_range};

use std::alloc::{AllocError, Global};
use xg_close_lines::{AskedWidth, asked_width};
use xg_close_numbers::is_at_most;
use xg_frac::Frac;
use xg_load::AcceptedGame;

/// What part of the payoffs' range is the width where none is given.
const PARTS: u32 = 100_000;

/// How wide a bracket may be: `num / (den * per)`.
#[derive(Clone, Copy)]
pub(crate) struct Width {
    pub(crate) num: u128,
    pub(crate) den: u128,
    pub(crate) per: u32,
    /// How it is written.
    pub(crate) shown: AskedWidth,
}

/// The width that is asked of a game's bracket.
pub(crate) fn width_asked(
    alloc: Global,
    asked: Option<Frac>,
    game: &AcceptedGame,
) -> Result<Width, AllocError>
    requires { IfSome asked (λ width. pos 1 ≤ℤ width.num) }
    ensures asked { IfOk result (λ width. IsWidth asked game.now (width_of width)) }
    ensures small { IfOk result IsSmallWidth }
    ensures shown { IfOk result (λ width. IsShown asked (asked_text width.shown)) }
{
    match asked {
        Some(width) => Ok(given_width(width)),
        None => usual_width(alloc, game),
    }
}

fn given_width(width: Frac) -> Width
    requires { pos 1 ≤ℤ width.num }
    ensures given { width_of result ≡ width }
    ensures small { IsSmallWidth result }
    ensures shown { IsQuotientText (unsigned_abs width.num) width.den (asked_text result.shown) }
{
    let num = width.num().unsigned_abs();
    let den = width.den().unsigned_abs();
    Width {
        num,
        den,
        per: 1,
        shown: asked_width(num, den),
    }
}

fn usual_width(alloc: Global, game: &AcceptedGame) -> Result<Width, AllocError>
    ensures usual { IfOk result (λ width. IsUsualWidth game.now (width_of width)) }
    ensures small { IfOk result IsSmallWidth }
{
    let range = game.payoff_range(alloc)?;
    Ok(part_of(range.least, range.greatest))
}

/// The part of the range between two payoffs that is the width where none is given.
fn part_of(low: Frac, high: Frac) -> Width
    requires { IsAtMost low high }
    ensures part { width_of result ≡ part_of_range (difference high low) }
    ensures small { IsSmallWidth result }
{
    let most = product(high.num(), low.den());
    let least = product(low.num(), high.den());
    let num = apart(least, most);
    let den = product(high.den(), low.den()) as u128;
    Width {
        num,
        den,
        per: PARTS,
        shown: shown_part(num, den),
    }
}

/// How far apart two products are.
fn apart(low: i128, high: i128) -> u128
    requires low { unsigned_abs low ≤ 2 ^ 124 }
    requires high { unsigned_abs high ≤ 2 ^ 124 }
    ensures { IsGap low high result }
{
    if high > low { (high - low) as u128 } else { 0 }
}

/// The product of two parts of fractions.
fn product(x: i128, y: i128) -> i128
    requires { (unsigned_abs x ≤ most) × (unsigned_abs y ≤ most) }
    ensures value { result ≡ x *ℤ y }
    ensures size { unsigned_abs result ≤ 2 ^ 124 }
    ensures positive { pos 1 ≤ℤ x → pos 1 ≤ℤ y → pos 1 ≤ℤ result }
{
    x * y
}

/// How a part of a range is written; where that has no room, about so.
fn shown_part(num: u128, den: u128) -> AskedWidth
    requires { 1 ≤ den }
{
    match den.checked_mul(PARTS as u128) {
        Some(parts) if parts < 1 << 124 && num / parts < 1 << 64 => asked_width(num, parts),
        _ => AskedWidth::Quotient(num / PARTS as u128, den),
    }
}

/// Whether both totals, over this scale, are no further apart than the width.
pub(crate) fn is_narrow(width: &Width, low: i128, high: i128, scale: u128) -> bool
    requires width { IsSmallWidth width.now }
    requires low { unsigned_abs low ≤ most_row }
    requires high { unsigned_abs high ≤ most_row }
    requires scale { 1 ≤ scale }
    ensures { IsTrue result ↔ AreAsNarrow (width_of width.now) scale low high }
{
    is_at_most(
        gap(low, high) * width.per as u128,
        width.den,
        width.num,
        scale,
    )
}

/// How far two totals are apart.
pub(crate) fn gap(low: i128, high: i128) -> u128
    requires low { unsigned_abs low ≤ most_row }
    requires high { unsigned_abs high ≤ most_row }
    ensures gap { IsGap low high result }
    ensures small { result ≤ 2 ^ 99 }
{
    if high > low { (high - low) as u128 } else { 0 }
}
