//! Which files are accepted, with which game, and what the others are refused with.

ghost use Rattle.def_check.specs.FileLaws.{AcceptedGamesAreSound, AcceptedWithoutFault, FileReadingIsExact};
ghost use Rattle.def_check.specs.FileLaws.{RefusedWithTheFirst};

/// A file can't be read exactly where its length or its text has a fault, and else stands for its game.
pub fn reading_is_exact()
    ensures { FileReadingIsExact }
{}

/// A file is refused exactly with its first fault, where its length counts first, then its text, then its game.
pub fn refused_with_the_first()
    ensures { RefusedWithTheFirst }
{}

/// A file is accepted with a game exactly where it isn't too long, stands for that game, and this has no fault.
pub fn accepted_without_fault()
    ensures { AcceptedWithoutFault }
{}

/// An accepted file's game is sound: probabilities, constant sum, unit, sum and mass within the limit, perfect recall.
pub fn accepted_games_are_sound()
    ensures { AcceptedGamesAreSound }
{}
