//! The ranges of a certificate's numbers, and what they bound.

ghost use Rattle.def_cert_verdict.specs.RangeLaws.{HeadAloneWithoutRounds, PlanSumsAreSmall, TraceProductsAreSmall};
ghost use Rattle.def_cert_verdict.specs.RangeLaws.{WorthsAreSmall};

/// An accepted certificate within its ranges shows its head alone exactly where no round was asked.
pub fn head_alone_without_rounds()
    ensures { HeadAloneWithoutRounds }
{}

/// Within the ranges each end of a trace line times the round of another line's end is at most 2^116.
pub fn trace_products_are_small()
    ensures { TraceProductsAreSmall }
{}

/// Within the ranges a set's numbers are together at most 2^46, and the unit times a plan's root is at most 2^98.
pub fn plan_sums_are_small()
    ensures { PlanSumsAreSmall }
{}

/// Within the ranges a plan's products with the weights are together at most 2^98, a reply's values 2^120, and each
/// worth 2^121.
pub fn worths_are_small()
    ensures { WorthsAreSmall }
{}
