//! Laws of `def_cert_accepted`: the certificate of a run, and that it is accepted.

ghost use Rattle.def_cert_accepted.specs.Laws.{OutcomesHaveTheirBounds, TheCertificateOfARunFits};
ghost use Rattle.def_cert_accepted.specs.Laws.{TheCertificateOfARunIsAccepted};

/// With the game's head a run's certificate is accepted: without a round its head alone, else with the ends of its
/// evaluations in payoff units.
pub fn the_certificate_of_a_run_is_accepted()
    ensures { TheCertificateOfARunIsAccepted }
{}

/// Where the head is the game's and within its ranges, and no set has too many actions, a run's certificate is within
/// its ranges.
pub fn the_certificate_of_a_run_fits()
    ensures { TheCertificateOfARunFits }
{}

/// After a round or more of either variant the outcome has bounds in print, and they hold of the game: both plans keep
/// them, the replies attain them, and no plan does better.
pub fn outcomes_have_their_bounds()
    ensures { OutcomesHaveTheirBounds }
{}
