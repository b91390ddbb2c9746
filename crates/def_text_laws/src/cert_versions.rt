//! Laws of `def_cert_versions`: the verdict on a certificate of either version, the upgrade from version 1 to version
//! 2, and what the bracket of player two's own payoff says.

pub mod rows;

ghost use Rattle.def_cert_versions.specs.Laws.{EachVersionedFaultHasItsCause, OldVerdictsStay, UpgradesAreAccepted};
ghost use Rattle.def_cert_versions.specs.Laws.{VersionsAcceptAlike};
ghost use Rattle.def_cert_versions.specs.PlayerTwo.{TheSecondBracketBoundsPlayerTwo};
ghost use Rattle.def_cert_versions.specs.Runs.{TheTextsOfARunAreAccepted};
ghost use Rattle.def_cert_versions.specs.Upgrade.{AcceptedAreUpgradable, UpgradedTextsAreAccepted, UpgradesFit};

/// Both versions accept the same certificates, and version 2 those alone whose second bracket is what the sum leaves.
pub fn versions_accept_alike()
    ensures { VersionsAcceptAlike }
{}

/// A certificate of either version is refused with a fault exactly where the fault's cause is there and all before it
/// hold.
pub fn each_versioned_fault_has_its_cause()
    ensures { EachVersionedFaultHasItsCause }
{}

/// The upgrade of an accepted certificate is accepted with the same verdict; one of version 2 is its own upgrade.
pub fn upgrades_are_accepted()
    ensures { UpgradesAreAccepted }
{}

/// In a text of version 1 a certificate has the verdict on what it says, which is told without its version.
pub fn old_verdicts_stay()
    ensures { OldVerdictsStay }
{}

/// Whoever wrote it, an accepted certificate of version 2 bounds what player two gets, in player two's own payoff: its
/// plan gets the lower end against every plan, and no plan of player two is sure of more than the upper end.
pub fn the_second_bracket_bounds_player_two()
    ensures { TheSecondBracketBoundsPlayerTwo }
{}

/// An accepted certificate has what its upgrade needs to be within the ranges.
pub fn accepted_are_upgradable()
    ensures { AcceptedAreUpgradable }
{}

/// With that the upgrade is within its ranges, as the certificate is.
pub fn upgrades_fit()
    ensures { UpgradesFit }
{}

/// Of a text that is accepted for a file's game, the upgrade's text says the upgrade, which is accepted with the same
/// verdict; of a text of version 2 it is the same text.
pub fn upgraded_texts_are_accepted()
    ensures { UpgradedTextsAreAccepted }
{}

/// The certificate of a run is accepted with its verdict both in its text of version 1 and in that of its upgrade.
pub fn the_texts_of_a_run_are_accepted()
    ensures { TheTextsOfARunAreAccepted }
{}
