//! What is given of a set or an outcome, beside what is kept of it.
ghost use Rattle.std.specs.Prelude.{◌≡◌, IfOk, OnErr, OnOk, option_map};
ghost use Rattle.std.specs.Cmp.Lexicographic.{pointwise};
ghost use Rattle.def_file.specs.Adding as adding;
ghost use Rattle.def_file.specs.Faults as faults;
ghost use Rattle.def_file.specs.Content.{action_with};
ghost use Rattle.xg_record.specs.Entry.{actions_seen};
ghost use Rattle.xg_record.specs.Seen.{action_seen};

use crate::actions::ActionList;
use std::alloc::{AllocError, Global};
use std::cmp::Ordering;
use xg_frac::{Frac, compare};
use xg_lex::{Text, TextView};
use xg_record::{ActionView, EntryActions};
use xg_tree::Kind;

/// Whether numbers have the same value.
pub(crate) fn same_value(a: Frac, b: Frac) -> bool
    ensures { result ≡ faults.same_value a b }
{
    compare(a, b) == Ordering::Equal
}

/// Whether an action has this name and, where chance moves, the same probability.
fn same_action(kind: Kind, name: &[u8], chance: Frac, given: &ActionView<'_>) -> bool
    ensures { result ≡ faults.same_action kind (action_with name.now chance) (action_seen given.now) }
{
    given.name.is(name)
        && match kind {
            Kind::Chance => same_value(chance, given.chance),
            Kind::One | Kind::Two | Kind::Leaf => true,
        }
}

/// Whether a name is given that differs from the one that is kept.
#[inline(always)]
pub(crate) fn name_differs(kept: &Option<Text>, given: &Option<TextView<'_>>) -> bool
    ensures { result ≡ faults.name_differs kept.now given.now }
{
    match (kept, given) {
        (Some(kept), Some(given)) => !given.is(kept.bytes()),
        _ => false,
    }
}

/// Keeps the name that is given, unless one is kept already.
#[inline(always)]
pub(crate) fn keep_name(
    alloc: Global,
    kept: &mut Option<Text>,
    given: &Option<TextView<'_>>,
) -> Result<(), AllocError>
    ensures ok { OnOk result (kept.new ≡ adding.kept_name kept.old given.now) }
    ensures err { OnErr result (kept.new ≡ kept.old) }
{
    if kept.is_none() {
        *kept = to_keep(alloc, given)?;
    }
    Ok(())
}

/// A name of the same bytes, if one is given.
pub(crate) fn to_keep(
    alloc: Global,
    given: &Option<TextView<'_>>,
) -> Result<Option<Text>, AllocError>
    ensures { IfOk result (λ name. name ≡ given.now) }
{
    match given {
        Some(given) => Ok(Some(given.to_text(alloc)?)),
        None => Ok(None),
    }
}

/// Whether lists of actions are as long, and the same at each place.
pub(crate) fn same_actions(kind: Kind, kept: &ActionList<'_>, given: &EntryActions<'_>) -> bool
    ensures { result ≡ pointwise (faults.same_action kind) kept.now (actions_seen given.now) }
{
    if kept.len() != given.len() {
        return false;
    }
    for i in 0..kept.len() {
        let action = kept.get(i);
        if !same_action(kind, action.name, action.chance, &given.get(i)) {
            return false;
        }
    }
    true
}
