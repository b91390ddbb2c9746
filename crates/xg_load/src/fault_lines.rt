//! The line of a file's fault.
ghost use Rattle.std.specs.Prelude.{◌≡◌, IfOk, string_bytes};
ghost use Rattle.def_program.specs.TextLines.{fault_line, node_line, number_fault_name};

use std::alloc::{AllocError, Global};
use xg_read::{FileFault, NumberFault};

/// The line of a file's fault.
pub fn fault_line(alloc: Global, fault: FileFault) -> Result<String, AllocError>
    ensures { IfOk result (λ line. string_bytes line ≡ fault_line fault) }
{
    match fault {
        FileFault::TooLong => String::from_str(alloc, "refused 1 TooLong\n"),
        FileFault::Syntax { at } => format!(in alloc; "refused 2 Syntax at {at}\n"),
        FileFault::UnexpectedEnd => String::from_str(alloc, "refused 3 UnexpectedEnd\n"),
        FileFault::TrailingText { at } => format!(in alloc; "refused 4 TrailingText at {at}\n"),
        FileFault::Number { at, fault } => {
            let name = number_fault_name(fault);
            format!(in alloc; "refused 5 Number at {at} {name}\n")
        }
        FileFault::Players { count } => format!(in alloc; "refused 6 Players count {count}\n"),
        FileFault::PlayerNumber { node } => node_line(alloc, "7 PlayerNumber", node),
        FileFault::SetUndefined { node } => node_line(alloc, "8 SetUndefined", node),
        FileFault::SetMismatch { node } => node_line(alloc, "9 SetMismatch", node),
        FileFault::OutcomeUndefined { node } => node_line(alloc, "10 OutcomeUndefined", node),
        FileFault::OutcomeMismatch { node } => node_line(alloc, "11 OutcomeMismatch", node),
        FileFault::PayoffCount { node } => node_line(alloc, "12 PayoffCount", node),
        FileFault::TooManyNodes => String::from_str(alloc, "refused 13 TooManyNodes\n"),
        FileFault::ActionCount { node } => node_line(alloc, "14 ActionCount", node),
        FileFault::ChanceNegative { node } => node_line(alloc, "15 ChanceNegative", node),
        FileFault::ChanceSum { node } => node_line(alloc, "16 ChanceSum", node),
        FileFault::NotConstantSum { node } => node_line(alloc, "17 NotConstantSum", node),
        FileFault::NotRecall { node, earlier } => {
            format!(in alloc; "refused 18 NotRecall node {node} earlier {earlier}\n")
        }
        FileFault::Scale { node } => node_line(alloc, "19 Scale", node),
    }
}

/// The line of a fault of this number and name at a node.
fn node_line(alloc: Global, fault: &str, node: u32) -> Result<String, AllocError>
    ensures { IfOk result (λ line. string_bytes line ≡ node_line fault.now node) }
{
    format!(in alloc; "refused {fault} node {node}\n")
}

fn number_fault_name(fault: NumberFault) -> &'static str
    ensures { result.now ≡ number_fault_name fault }
{
    match fault {
        NumberFault::Form => "Form",
        NumberFault::ZeroDenominator => "ZeroDenominator",
        NumberFault::Range => "Range",
    }
}
