//! Faults of game files, compared.
use def_file::FileFault;
use def_fraction::NumberFault;

/// Whether both are the same fault with the same places.
pub fn is_same_fault(one: FileFault, other: FileFault) -> bool {
    parts_of(one) == parts_of(other) && number_fault_of(one) == number_fault_of(other)
}

/// The place of a variant, and the numbers that it holds.
fn parts_of(fault: FileFault) -> (u32, usize, u32) {
    match fault {
        FileFault::TooLong => (1, 0, 0),
        FileFault::Syntax { at } => (2, at, 0),
        FileFault::UnexpectedEnd => (3, 0, 0),
        FileFault::TrailingText { at } => (4, at, 0),
        FileFault::Number { at, .. } => (5, at, 0),
        FileFault::Players { count } => (6, 0, count),
        FileFault::PlayerNumber { node } => (7, 0, node),
        FileFault::SetUndefined { node } => (8, 0, node),
        FileFault::SetMismatch { node } => (9, 0, node),
        FileFault::OutcomeUndefined { node } => (10, 0, node),
        FileFault::OutcomeMismatch { node } => (11, 0, node),
        FileFault::PayoffCount { node } => (12, 0, node),
        FileFault::TooManyNodes => (13, 0, 0),
        FileFault::ActionCount { node } => (14, 0, node),
        FileFault::ChanceNegative { node } => (15, 0, node),
        FileFault::ChanceSum { node } => (16, 0, node),
        FileFault::NotConstantSum { node } => (17, 0, node),
        FileFault::NotRecall { node, earlier } => (18, earlier as usize, node),
        FileFault::Scale { node } => (19, 0, node),
    }
}

fn number_fault_of(fault: FileFault) -> Option<NumberFault> {
    match fault {
        FileFault::Number { fault, .. } => Some(fault),
        _ => None,
    }
}
