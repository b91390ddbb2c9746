//! The rule of the table, and what each kind of step makes of the views.
use atomic_table::{Join, Play, Split, TableRule};
use def_words::View;
use std::marker::PhantomData;
use xg_rowcore::RowName;

/// The rule of the table: each number below the claim word is claimed once, and each row's words have what the claimed
/// jobs have added there.
pub struct WordRule<N: RowName>(PhantomData<N>);

impl<N: RowName> TableRule<(), View, ()> for WordRule<N> {
    ghost use Rattle.def_words.specs.Rule.{AreWordsKept};
    ghost use Rattle.def_words.specs.Views.{first_view};

    ghost holds = { λ _ s. AreWordsKept N.jobs N.rows N.amount s.words s.views };

    ghost first = { λ _. first_view };
}

/// The number that is found joins the seat's list.
pub(crate) struct Claims;

impl Play<(), View> for Claims {
    ghost use Rattle.std.specs.Prelude.{◌≡◌};
    ghost use Rattle.xg_atomic.specs.Seats.{claimed};

    ghost then = { λ _ me found now. now ≡ (claimed found me.0, me.1) };
}

/// The seat's last job has its amount added at one more row, that of the word.
pub(crate) struct Adds;

impl Play<(), View> for Adds {
    ghost use Rattle.std.specs.Prelude.{◌≡◌};
    ghost use Rattle.def_words.specs.Amounts.{row_of};
    ghost use Rattle.xg_atomic.specs.Seats.{with_row};

    ghost then = { λ step me _ now. now ≡ (with_row (row_of step.word) me.0, me.1) };
}

/// One more worker is made.
pub(crate) struct Splits;

impl Split<View> for Splits {
    ghost use Rattle.def_words.specs.Views.{new_worker};
    ghost use Rattle.xg_atomic.specs.Seats.{with_worker};

    ghost left = { with_worker };

    ghost right = { λ _. new_worker };
}

/// A worker's numbers join the owner's.
pub(crate) struct Joins;

impl Join<View> for Joins {
    ghost use Rattle.def_words.specs.Views.{spent_view};
    ghost use Rattle.xg_atomic.specs.Seats.{joined_views};

    ghost both = { joined_views };

    ghost spent = { spent_view };
}
