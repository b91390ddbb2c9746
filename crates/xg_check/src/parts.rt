//! Parts of a certificate as its tests take them.
ghost use Rattle.std.specs.Prelude.{◌≡◌, ◌<◌, length, pos, slice_index, slice_index_or};
ghost use Rattle.xg_check.specs.Views.{reply_of};

use xg_frac::Ratio;

/// What is printed of a reply at a set: the set's value, and the action that is chosen, counted from 1.
#[derive(Clone, Copy)]
pub(crate) struct SetReply {
    pub(crate) value: i128,
    pub(crate) choice: u32,
}

pub(crate) fn reply_at(values: &[i128], choices: &[u32], k: usize) -> SetReply
    requires value { k < length values.now }
    requires choice { k < length choices.now }
    ensures { reply_of result
        ≡ record { value = slice_index_or values.now k (pos 0); choice = slice_index choices.now k } }
{
    SetReply {
        value: values[k],
        choice: choices[k],
    }
}

/// What is printed of an end of the bracket: the reply's total, that of the last trace line, and the bound, which is
/// the total over the scale.
#[derive(Clone, Copy)]
pub struct PrintedEnd {
    pub total: i128,
    pub traced: i128,
    pub bound: Ratio,
    pub scale: i128,
}
