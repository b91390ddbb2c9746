//! Where a row lies: in which stripe, and at which place of it.
ghost use Rattle.std.specs.Prelude.{◌≡◌, ◌<◌};
ghost use Rattle.def_history.specs.History as history;

/// The number of stripes that the program's rows are cut into. Dividing by a number that is known takes no division,
/// and this is done for each entry.
pub const USUAL_STRIPES: u32 = 16;

/// The row's stripe.
#[inline(always)]
pub(crate) fn stripe_of(row: u32, stripes: u32) -> u32
    requires { 0 < stripes }
    ensures { result ≡ history.stripe_of stripes row }
{
    if stripes == USUAL_STRIPES {
        row % USUAL_STRIPES
    } else {
        row % stripes
    }
}

/// The row's place in its stripe.
#[inline(always)]
pub(crate) fn place_of(row: u32, stripes: u32) -> u32
    requires { 0 < stripes }
    ensures { result ≡ history.place_of stripes row }
{
    if stripes == USUAL_STRIPES {
        row / USUAL_STRIPES
    } else {
        row / stripes
    }
}
