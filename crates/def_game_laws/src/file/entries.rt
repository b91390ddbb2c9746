//! The game that the entries of a file stand for, by all entries at once, in definitions alone.

ghost use Rattle.def_file.specs.EntryLaws.{EntriesMakeWholeGame, EntryFaultIsFirstBroken, NoFaultBreaksNone};
ghost use Rattle.def_file.specs.EntryLaws.{NothingIsKnown, OneMoreIsKnown};
ghost use Rattle.def_file.specs.EntryRows.{EntryRows};

/// Without an entry nothing is known.
pub fn nothing_is_known()
    ensures { NothingIsKnown }
{}

/// What is known after entries, with one more, is what all of them say.
pub fn one_more_is_known()
    ensures { OneMoreIsKnown }
{}

/// Behind entries without a fault, the fault of an entry is that of the first rule that it breaks.
pub fn entry_fault_is_first_broken()
    ensures { EntryFaultIsFirstBroken }
{}

/// Behind entries without a fault, an entry has none exactly where it breaks no rule.
pub fn no_fault_breaks_none()
    ensures { NoFaultBreaksNone }
{}

/// Entries without a fault whose nodes are a whole tree are a game whose sets and outcomes go with its tree.
pub fn entries_make_whole_game()
    ensures { EntriesMakeWholeGame }
{}

/// Two small files stand for these nodes and tables, and one more entry has the fault of the first rule that it
/// breaks, or none.
pub fn entry_rows()
    ensures { EntryRows }
{}
