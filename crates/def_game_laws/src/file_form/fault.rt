//! The first fault of a game file, in the format's own words.

ghost use Rattle.def_file_form.specs.FaultLaws.{FileFaultIsFirst, FirstIsFileFault};

/// The fault with which reading stops is the first.
pub fn file_fault_is_first()
    ensures { FileFaultIsFirst }
{}

/// Reading stops with a fault that is the first; so there is one first fault at most.
pub fn first_is_file_fault()
    ensures { FirstIsFileFault }
{}
