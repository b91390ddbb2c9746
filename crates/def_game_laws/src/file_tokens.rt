//! Laws of `def_file_tokens`: the tokens of a game file in the profile of Gambit's `.efg` format.

ghost use Rattle.def_file_tokens.specs.Laws.{NextIsLexeme, NextIsSyntax, NextIsUnclosed, NextByteIsFirst};
ghost use Rattle.def_file_tokens.specs.Laws.{NoByteIsSpace, EndStays, PiecesAreRead, ReadIsPieces, OneDivision};
ghost use Rattle.def_file_tokens.specs.Laws.{OneSpelling};

/// A token is the next exactly where it stands behind the white space, a run being longest.
pub fn next_is_lexeme()
    ensures { NextIsLexeme }
{}

/// A syntax fault is at a place exactly where the first byte behind the white space is there and begins no token.
pub fn next_is_syntax()
    ensures { NextIsSyntax }
{}

/// A text is unclosed exactly where each further quotation mark, to the end, has a backslash right before it.
pub fn next_is_unclosed()
    ensures { NextIsUnclosed }
{}

/// The next byte is the first one that isn't white space.
pub fn next_byte_is_first()
    ensures { NextByteIsFirst }
{}

/// There is no next byte exactly where only white space is left.
pub fn no_byte_is_space()
    ensures { NoByteIsSpace }
{}

/// At the end the next token is the end again.
pub fn end_stays()
    ensures { EndStays }
{}

/// Bytes that are white space and tokens in turn are read as these tokens.
pub fn pieces_are_read()
    ensures { PiecesAreRead }
{}

/// Bytes that are read to their end are white space and tokens in turn.
pub fn read_is_pieces()
    ensures { ReadIsPieces }
{}

/// Bytes are white space and tokens in turn in one way at most.
pub fn one_division()
    ensures { OneDivision }
{}

/// An inside stands for bytes exactly where their last one is no backslash, and the inside is the bytes with a
/// backslash before each quotation mark.
pub fn one_spelling()
    ensures { OneSpelling }
{}
