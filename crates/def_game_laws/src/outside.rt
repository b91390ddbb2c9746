//! Laws of `def_outside`: what the files and the sinks that a call is handed did in it: the count of an object's
//! faults, and the bytes that a sink was given.

ghost use Rattle.def_outside.specs.Calls.{CallsAreRead};
ghost use Rattle.def_outside.specs.Cause.{CountsOnlyRise};

/// A count that rose in one part of a call, and didn't fall in the part before or behind, rose in the whole call.
pub fn counts_only_rise()
    ensures { CountsOnlyRise }
{}

/// A count that grew may tell of a fault; a front isn't the whole, and nothing is a front of some bytes.
pub fn calls_are_read()
    ensures { CallsAreRead }
{}
