//! The board of offers: any plans with their replies, and what of them is kept.

ghost use Rattle.def_reply.specs.OfferLaws.{FairOffersHaveBounds, FirstOfferMakesEnds, KeptEndsAreBounds};
ghost use Rattle.def_reply.specs.OfferLaws.{OffersAreTraced, OffersKeepTheEnds};

/// A board's trace is that of its offers' evaluations.
pub fn offers_are_traced()
    ensures { OffersAreTraced }
{}

/// A board keeps the ends of its offers' evaluations, each with the plan and the reply of its own offer.
pub fn offers_keep_the_ends()
    ensures { OffersKeepTheEnds }
{}

/// Before the first offer a board has no end, and after it both.
pub fn first_offer_makes_ends()
    ensures { FirstOfferMakesEnds }
{}

/// The totals in a fair offer are the attained floor of player one's plan and the attained ceiling of player two's.
pub fn fair_offers_have_bounds()
    ensures { FairOffersHaveBounds }
{}

/// At the ends that are kept of fair offers the totals are the attained floor and ceiling of the plans there.
pub fn kept_ends_are_bounds()
    ensures { KeptEndsAreBounds }
{}
