//! What the words of a row tell at the end.
ghost use Rattle.std.specs.Prelude.{◌≡◌, ◌<◌, ◌+◌, ◌*◌, pos, ◌-ℤ◌, slice_index};
ghost use Rattle.std.specs.Mem.Slots.{slots_items, slots_len, IsFull};
ghost use Rattle.def_words.specs.Amounts.{word_at, positive, negative};

use atomic_table::Closed;
use std::alloc::Global;

/// The sum of a row's positive additions less the sizes of its negative ones.
pub(crate) fn total(closed: &Closed<(), Global>, row: u32) -> i128
    requires full { IsFull closed.now.words }
    requires there { 2 * row + 2 < slots_len closed.now.words }
    ensures { result ≡ pos (slice_index (slots_items closed.now.words) (word_at positive row))
        -ℤ pos (slice_index (slots_items closed.now.words) (word_at negative row)) }
{
    difference(
        closed.word(2 * row as usize + 1),
        closed.word(2 * row as usize + 2),
    )
}

fn difference(up: u64, down: u64) -> i128
    ensures { result ≡ pos up -ℤ pos down }
{
    i128::from(up) - i128::from(down)
}
