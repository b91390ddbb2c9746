//! The lines of a check, by which alone a wrong line of a fault is refused.

ghost use Rattle.def_program.specs.TextRows.{CheckLineRows};

/// Rows: what a check says of what is accepted, and the lines of the faults of a certificate.
pub fn check_line_rows()
    ensures { CheckLineRows }
{}
