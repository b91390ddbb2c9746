//! Lines of a trace, compared.
use def_reply::TraceLine;

pub fn is_same_line(one: &TraceLine, other: &TraceLine) -> bool {
    one.round == other.round
        && one.low_round == other.low_round
        && one.low == other.low
        && one.high_round == other.high_round
        && one.high == other.high
}

/// Whether both traces have the same lines.
pub fn is_same_trace(one: &[TraceLine], other: &[TraceLine]) -> bool {
    if one.len() != other.len() {
        return false;
    }
    for (line, beside) in one.iter().zip(other) {
        if !is_same_line(line, beside) {
            return false;
        }
    }
    true
}
