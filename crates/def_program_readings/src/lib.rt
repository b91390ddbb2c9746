//! What the words of the program's contract say, in plain words and both ways: what each relation of an end gives, and
//! what gives it. There is no code here; each function's contract is a law.
#![tactic(auto)]

ghost use Rattle.def_program_readings.specs.Bounds.{BoundsAreRead};
ghost use Rattle.def_program_readings.specs.Checks.{ChecksAreRead};
ghost use Rattle.def_program_readings.specs.Counts.{CountsAreRead, OpensAreRead, SaidLinesAreRead};
ghost use Rattle.def_program_readings.specs.Lengths.{LengthsComeFirst};
ghost use Rattle.def_program_readings.specs.Lines.{ChecksSayFaults, LinesAreRead, SaidIsMeant};
ghost use Rattle.def_program_readings.specs.Meanings.{FilesAreNamed, MeaningsAreRead};
ghost use Rattle.def_program_readings.specs.Offers.{OffersAreRead, UpgradablesAreRead};
ghost use Rattle.def_program_readings.specs.Parts.{PartsAreOfTheirCommands, PartsAreRead};
ghost use Rattle.def_program_readings.specs.Ranges.{RangesAreRead};

/// A count rose, once or not at all, in plain numbers.
pub fn counts_are_read()
    ensures { CountsAreRead }
{}

/// How many files were opened.
pub fn opens_are_read()
    ensures { OpensAreRead }
{}

/// A line was said, or cut off by one fault, where the sink tells what it has.
pub fn said_lines_are_read()
    ensures { SaidLinesAreRead }
{}

/// What holds of each answer that is meant, of no other answer, and of the status.
pub fn meanings_are_read()
    ensures { MeaningsAreRead }
{}

/// Which files are told.
pub fn files_are_named()
    ensures { FilesAreNamed }
{}

/// The line of each status.
pub fn lines_are_read()
    ensures { LinesAreRead }
{}

/// Which commands may say a fault of a certificate.
pub fn checks_say_faults()
    ensures { ChecksSayFaults }
{}

/// A line that was said goes with the status, and is the one that is meant.
pub fn said_is_meant()
    ensures { SaidIsMeant }
{}

/// What bounds that hold say of totals, roots and trace.
pub fn bounds_are_read()
    ensures { BoundsAreRead }
{}

/// Which games words play.
pub fn parts_are_of_commands()
    ensures { PartsAreOfTheirCommands }
{}

/// What is said of each game that words play.
pub fn parts_are_read()
    ensures { PartsAreRead }
{}

/// What is said of the certificate that words check.
pub fn checks_are_read()
    ensures { ChecksAreRead }
{}

/// A file that is too long comes before all else, and then a certificate that is too long.
pub fn lengths_come_first()
    ensures { LengthsComeFirst }
{}

/// Ranges in plain numbers.
pub fn ranges_are_read()
    ensures { RangesAreRead }
{}

/// What may be offered after a last round.
pub fn offers_are_read()
    ensures { OffersAreRead }
{}

/// Which certificates can be upgraded.
pub fn upgradables_are_read()
    ensures { UpgradablesAreRead }
{}
