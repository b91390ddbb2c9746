//! The rule of the table, and how views are cut and joined.
use crate::view::View;
use atomic_table::{Join, Play, Split, TableRule};
use std::marker::{Brand, PhantomData};

/// The rule of the table: word 0 has the number, and over all seats each right stands once, there is a ticket for each
/// worker, and a part for each stripe, for each worker's pass, for the bag and for the purse.
pub struct RightsRule;

impl TableRule<(), View, u64> for RightsRule {
    ghost use Rattle.xg_locked.specs.Rights.{IsKept, whole_view};

    ghost holds = { λ number s. IsKept number s.words s.views };

    ghost first = { whole_view };
}

/// A load that tells a seat what the rule says of its own view.
pub(crate) struct LoadsView;

impl Play<(), View> for LoadsView {
    ghost use Rattle.std.specs.Prelude.{◌≡◌};
    ghost use Rattle.xg_locked.specs.Rights.{IsLoaded};

    ghost then = { λ _ me found now. (now ≡ me) × IsLoaded found me.0 };
}

/// Two views put together.
pub(crate) struct JoinsViews;

impl Join<View> for JoinsViews {
    ghost use Rattle.xg_locked.specs.Rights.{both, spent};

    ghost both = { both };

    ghost spent = { spent };
}

/// How a view is to be cut: what the seat keeps, and what a new seat is given.
pub trait Cut {
    ghost use Rattle.xg_locked.specs.declared.view.View.{View};

    /// What the seat keeps.
    ghost kept: { View };

    /// What the new seat is given.
    ghost given: { View };
}

impl Cut for Brand {
    ghost use Rattle.xg_locked.specs.Rights.{spent};

    ghost kept = { spent };

    ghost given = { spent };
}

/// A view cut as `C` says.
pub(crate) struct Cuts<C: Cut>(PhantomData<C>);

impl<C: Cut> Split<View> for Cuts<C> {
    ghost left = { λ _. C.kept };

    ghost right = { λ _. C.given };
}
