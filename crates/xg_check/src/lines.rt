//! The tests of the trace.
ghost use Rattle.std.specs.Prelude.{◌≡◌, ℕ, ◌^◌, ◌<◌, ◌≤◌, ◌*ℤ◌};
ghost use Rattle.std.specs.Prelude.{length, pos, slice_index_or, unsigned_abs};
ghost use Rattle.def_reply.specs.declared.TraceLine.{TraceLine};
ghost use Rattle.def_cert_verdict.specs.RangeLaws.{ProductsOfLines};
ghost use Rattle.def_cert_verdict.specs.Ranges.{most_line_product};
ghost use Rattle.def_cert_verdict.specs.Certificate.{last_line};
ghost use Rattle.def_cert_verdict.specs.Verdict.{first_failing, is_wider, trace_tests};

use def_cert_verdict::TestFault;
use def_reply::TraceLine;

/// The last line, or one of zeros where there is none.
pub(crate) fn last_line(lines: &[TraceLine]) -> TraceLine
    ensures { result ≡ last_line lines.now }
{
    if lines.is_empty() {
        return TraceLine {
            round: 0,
            low_round: 0,
            low: 0,
            high_round: 0,
            high: 0,
        };
    }
    lines[lines.len() - 1]
}

fn times(x: i128, n: u32) -> i128
    requires { unsigned_abs (x *ℤ pos n) ≤ most_line_product }
    ensures { result ≡ x *ℤ pos n }
{
    x * n as i128
}

fn is_wider(later: &TraceLine, earlier: &TraceLine) -> bool
    requires later { ProductsOfLines later.now earlier.now }
    requires earlier { ProductsOfLines earlier.now later.now }
    ensures { result ≡ is_wider later.now earlier.now }
{
    times(later.low, earlier.low_round) < times(earlier.low, later.low_round)
        || times(earlier.high, later.high_round) < times(later.high, earlier.high_round)
}

/// The first line of the trace that is wider than the one before it, by its number in the text, where the first of all
/// has this one.
pub(crate) fn trace_fault(first: u32, lines: &[TraceLine]) -> Option<TestFault>
    requires first { first ≤ 9 }
    requires few { length lines.now ≤ 2 ^ 20 }
    requires products { (j k : ℕ) (line : TraceLine) → j < length lines.now → k < length lines.now
        → ProductsOfLines (slice_index_or lines.now j line) (slice_index_or lines.now k line) }
    ensures { result ≡ first_failing (trace_tests first lines.now) }
{
    for k in 1..lines.len() {
        if is_wider(&lines[k], &lines[k - 1]) {
            return Some(TestFault::TraceWidens {
                line: first + k as u32,
            });
        }
    }
    None
}
