//! Laws of `def_batch`: A batch: the files that are solved side by side, how many of their bytes are kept, and what
//! each of them stands for.

ghost use Rattle.def_batch.specs.Laws.{EmptyFilesFit, EntriesAreComputed, KeptBytesAreWithin, LongFilesTakeNothing};
ghost use Rattle.def_batch.specs.Laws.{KeptFilesAreJudgedAlone, RefusedAsTooLong, ShortFilesAreKept};
ghost use Rattle.def_batch.specs.Rows.{RoomRows};

/// The entries that are computed of files are exactly those that the words say: one for each file in order, and too
/// long exactly where the file has more bytes than the room less the bytes of the earlier files that were kept.
pub fn entries_are_computed()
    ensures { EntriesAreComputed }
{}

/// All files that are kept have together at most as many bytes as there is room for.
pub fn kept_bytes_are_within()
    ensures { KeptBytesAreWithin }
{}

/// A file that is too long takes nothing: the files behind it have the entries that they have without it.
pub fn long_files_take_nothing()
    ensures { LongFilesTakeNothing }
{}

/// An empty file always fits.
pub fn empty_files_fit()
    ensures { EmptyFilesFit }
{}

/// Files that have together no more bytes than there is room for are all kept.
pub fn short_files_are_kept()
    ensures { ShortFilesAreKept }
{}

/// A file that is kept stands for the game, or is refused with the first fault, that it has alone.
pub fn kept_files_are_judged_alone()
    ensures { KeptFilesAreJudgedAlone }
{}

/// A file of a batch is refused as too long exactly where it isn't kept.
pub fn refused_as_too_long()
    ensures { RefusedAsTooLong }
{}

/// Rows: files of a few bytes, with little room.
pub fn room_rows()
    ensures { RoomRows }
{}
