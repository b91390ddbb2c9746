//! Shares: how n whole units are dealt over weights, so that nothing is lost.

ghost use Rattle.std.specs.Prelude.{◌≡◌, [], ◌∷◌};
ghost use Rattle.def_round.specs.ShareLaws.{NoWeightNoShare, SharesAreDifferences, SharesAreInProportion};
ghost use Rattle.def_round.specs.ShareLaws.{SharesBeforeAddUp, SharesDealAll};
ghost use Rattle.def_round.specs.Shares.{shares};

/// With at least one weight there is a share for each, and they add up to n.
pub fn shares_deal_all()
    ensures { SharesDealAll }
{}

/// The first i shares add up to the floor of n times their weights, divided by all; without weights each counts as 1.
pub fn shares_before_add_up()
    ensures { SharesBeforeAddUp }
{}

/// Each share is a true difference of two floors, so it is at least 0.
pub fn shares_are_differences()
    ensures { SharesAreDifferences }
{}

/// Each share is its weight's part of n, but for less than one unit.
pub fn shares_are_in_proportion()
    ensures { SharesAreInProportion }
{}

/// A weight of 0 beside others gets nothing.
pub fn no_weight_no_share()
    ensures { NoWeightNoShare }
{}

/// Rows: units that don't divide evenly, a weight of 0 beside others, and nothing to share.
pub fn worked_shares()
    ensures three_equal { shares 65536 (0 ∷ 0 ∷ 0 ∷ []) ≡ 21845 ∷ 21845 ∷ 21846 ∷ [] }
    ensures five_in_three { shares 5 (1 ∷ 0 ∷ 2 ∷ []) ≡ 1 ∷ 0 ∷ 4 ∷ [] }
    ensures nothing { shares 0 (7 ∷ []) ≡ 0 ∷ [] }
{}
