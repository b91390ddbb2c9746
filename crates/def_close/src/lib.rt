//! What a search for a narrow bracket prints: the certificate of two plans, whoever made them; how narrow it is; and
//! what is said on the way. There is no code here: the functions' contracts are laws of the definitions, which stand in
//! `specs/`.
#![tactic(auto)]

ghost use Rattle.def_close.specs.Laws.{CertificatesOfPlansAreAccepted, CertificatesOfPlansFit};
ghost use Rattle.def_close.specs.Laws.{NarrowTotalsAreNarrow, TextsOfPlansHold};

/// The certificate of any two plans with the best replies to them is accepted, with one line of trace.
pub fn certificates_of_plans_are_accepted()
    ensures { CertificatesOfPlansAreAccepted }
{}

/// Where the head is within its ranges and asks for one line, and no set has too many actions, its numbers are within
/// theirs.
pub fn certificates_of_plans_fit()
    ensures { CertificatesOfPlansFit }
{}

/// The text of any two plans of the greatest root is accepted against the file, and what its bounds say holds of the
/// file's game.
pub fn texts_of_plans_hold()
    ensures { TextsOfPlansHold }
{}

/// Whether two totals over one scale are as narrow as asked is whether the bracket of both is, in lowest terms.
pub fn narrow_totals_are_narrow()
    ensures { NarrowTotalsAreNarrow }
{}
