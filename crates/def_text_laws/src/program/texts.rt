//! The texts that the program writes, in definitions alone.

ghost use Rattle.def_program.specs.TextLaws.{LinesTellFaults};
ghost use Rattle.def_program.specs.TextRows.{FaultLineRows, OneLeafRows};

/// Rows: the texts of a game of one leaf.
pub fn leaf_rows()
    ensures { OneLeafRows }
{}

/// Rows: the lines of five faults, with their numbers, names and places.
pub fn fault_line_rows()
    ensures { FaultLineRows }
{}

/// Two faults whose numbers have at most 64 bits and whose lines are the same are the same fault.
pub fn lines_tell_faults()
    ensures { LinesTellFaults }
{}
