//! The tests of the head.
ghost use Rattle.std.specs.Prelude.{◌≡◌, ◌==◌, ◌&&◌, length};
ghost use Rattle.def_plan.specs.Form.{sequence_count};
ghost use Rattle.def_cert_verdict.specs.Verdict.{first_failing, is_same_fraction};
ghost use Rattle.def_cert_versions.specs.Verdict.{head_tests_of};
ghost use Rattle.xg_outcome.specs.Outcome.{head_of};
ghost use Rattle.xg_check.specs.Parts.{is_unit_line};

use def_cert_text::TextVersion;
use def_cert_verdict::TestFault;
use def_tree::Player;
use xg_cert::Head;
use xg_numbers::Numbers;

fn has_sum(numbers: &Numbers, head: &Head) -> bool
    ensures { result ≡ is_same_fraction head.now.sum numbers.now.sum }
{
    head.sum == numbers.sum()
}

fn has_unit(version: TextVersion, numbers: &Numbers, head: &Head) -> bool
    ensures { result ≡ is_unit_line version numbers.now (head_of head.now) }
{
    match version {
        TextVersion::One => head.unit == numbers.unit() && has_sum(numbers, head),
        TextVersion::Two => head.unit == numbers.unit(),
    }
}

/// The first line of the head that isn't the game's. Version 1 has the sum in the line of the unit, so that its seventh
/// line isn't told.
pub(crate) fn head_fault(version: TextVersion, numbers: &Numbers, head: &Head) -> Option<TestFault>
    ensures { result ≡ first_failing (head_tests_of version numbers.now (head_of head.now)) }
{
    let form = numbers.form();
    if head.nodes != numbers.nodes() || head.leaves != form.leaf_count() {
        return Some(TestFault::HeadDiffers { line: 2 });
    }
    if head.sets.0 != form.set_count(Player::One) || head.sets.1 != form.set_count(Player::Two) {
        return Some(TestFault::HeadDiffers { line: 3 });
    }
    if head.sequences.0 != form.sequence_count(Player::One)
        || head.sequences.1 != form.sequence_count(Player::Two)
    {
        return Some(TestFault::HeadDiffers { line: 4 });
    }
    if !has_unit(version, numbers, head) {
        return Some(TestFault::HeadDiffers { line: 5 });
    }
    if head.mass != numbers.mass() {
        return Some(TestFault::HeadDiffers { line: 6 });
    }
    if !has_sum(numbers, head) {
        return Some(TestFault::HeadDiffers { line: 7 });
    }
    None
}
