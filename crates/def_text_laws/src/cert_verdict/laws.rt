//! What the tests decide.

ghost use Rattle.def_cert_verdict.specs.FaultCauses.{EachFaultHasItsCause};
ghost use Rattle.def_cert_verdict.specs.Laws.{AcceptanceIsExact, AcceptedCertificatesShowTheirBounds};
ghost use Rattle.def_cert_verdict.specs.Laws.{BoundsThatHoldUpAreShown};
ghost use Rattle.def_cert_verdict.specs.Laws.{TheFirstFailureDecides};

/// A list of tests has no fault exactly where all pass; else its fault is that of the first test that fails.
pub fn the_first_failure_decides()
    ensures { TheFirstFailureDecides }
{}

/// A certificate is accepted exactly where its head is the game's and its bounds, if it has any, hold up; it shows just
/// these.
pub fn acceptance_is_exact()
    ensures { AcceptanceIsExact }
{}

/// A certificate is refused with a fault exactly where the fault's cause is there and all stages before it hold.
pub fn each_fault_has_its_cause()
    ensures { EachFaultHasItsCause }
{}

/// Whoever wrote it, an accepted certificate shows two plans, and its low and high are their attained floor and ceiling
/// in payoff units.
pub fn accepted_certificates_show_their_bounds()
    ensures { AcceptedCertificatesShowTheirBounds }
{}

/// Printed bounds that hold up, whatever the rounds weigh, are attained bounds of the printed plans.
pub fn bounds_that_hold_up_are_shown()
    ensures { BoundsThatHoldUpAreShown }
{}
