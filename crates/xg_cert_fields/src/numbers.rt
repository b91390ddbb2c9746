//! Numbers as fields.
ghost use Rattle.std.specs.Prelude.{◌≡◌, ◌<◌, ◌≤◌, ◌≤ℤ◌, if◌then◌else◌, length, min};
ghost use Rattle.std.specs.Prelude.{pos, unsigned_abs, Some, None, IfSome, IsTrue};
ghost use Rattle.std.specs.List.{prefix_len};
ghost use Rattle.std.specs.Str.{all_ascii_digits};
ghost use Rattle.def_fraction.specs.Digits.{is_numeral, number_of};
ghost use Rattle.def_fraction.specs.Fraction.{fits, most, whole_number};
ghost use Rattle.def_cert_text.specs.CertText.{version_in};
ghost use Rattle.def_cert_text.specs.Formats.{same_bytes};
ghost use Rattle.def_cert_text.specs.Numbers.{fraction_in, integer_in, is_no_slash, leads_no_zero, nonzero_in, over_in};
ghost use Rattle.def_cert_text.specs.Numbers.{whole_in};
ghost use Rattle.xg_frac.specs.Scan.{past_all};
ghost use Rattle.def_cert_verdict.specs.Ranges.{most_printed};

use def_cert_text::TextVersion;
use def_cert_verdict::ranges::MOST_PRINTED;
use def_fraction::NumberFault;
use xg_frac::{Frac, MOST_PART, PAST, Ratio, ratio, read_literal, read_whole};

/// Whether the bytes of a field are the wanted ones.
pub(crate) fn same_bytes(wanted: &[u8], field: &[u8]) -> Option<()>
    ensures { result ≡ same_bytes wanted.now field.now }
{
    if field != wanted {
        return None;
    }
    Some(())
}

fn leads_no_zero(field: &[u8]) -> bool
    ensures { result ≡ leads_no_zero field.now }
{
    match field {
        [first, _, ..] => *first != b'0',
        _ => true,
    }
}

/// The number of digits of which there may be any number.
fn wide_number(digits: &[u8]) -> u128
    requires { IsTrue (all_ascii_digits digits.now) }
    ensures { result ≡ min (number_of digits.now) past_all }
{
    let mut number: u128 = 0;
    for digit in digits {
        let units = (*digit - b'0') as u128;
        number = number.saturating_mul(10).saturating_add(units).min(PAST);
    }
    number
}

/// The number that a field writes, if all its bytes are digits and there is at least one.
fn numeral(field: &[u8]) -> Option<u128>
    ensures { result ≡ (if is_numeral field.now then Some (min (number_of field.now) past_all) else None) }
{
    match read_whole(field) {
        Ok(number) => Some(number as u128),
        Err(NumberFault::Range) => Some(wide_number(field)),
        Err(_) => None,
    }
}

/// A whole number of a range.
#[tactic(auto, unfolding(def_cert_text::specs::Numbers::whole_in))]
pub(crate) fn whole_in(low: u128, high: u128, field: &[u8]) -> Option<u128>
    requires { high < past_all }
    ensures exact { result ≡ whole_in low high field.now }
    ensures range { IfSome result (λ n. (low ≤ n) × (n ≤ high)) }
{
    let number = numeral(field)?;
    if leads_no_zero(field) && low <= number && number <= high {
        return Some(number);
    }
    None
}

/// A whole number of a range of small ones.
pub(crate) fn number_in(low: u64, high: u64, field: &[u8]) -> Option<u64>
    ensures exact { result ≡ whole_in low high field.now }
    ensures range { IfSome result (λ n. (low ≤ n) × (n ≤ high)) }
{
    let number = whole_in(low as u128, high as u128, field)?;
    Some(number as u64)
}

/// A whole number with a sign where it is below 0.
#[tactic(auto, unfolding(def_cert_text::specs::Numbers::integer_in))]
pub(crate) fn integer_in(field: &[u8]) -> Option<i128>
    ensures exact { result ≡ integer_in most_printed field.now }
    ensures size { IfSome result (λ n. unsigned_abs n ≤ most_printed) }
{
    match field {
        [] => None,
        [b'-', digits @ ..] => {
            let size = whole_in(1, MOST_PRINTED, digits)?;
            Some(-(size as i128))
        }
        _ => {
            let size = whole_in(0, MOST_PRINTED, field)?;
            Some(size as i128)
        }
    }
}

fn over_one(num: i128) -> Ratio
    requires { unsigned_abs num ≤ most_printed }
    ensures { result ≡ whole_number num }
{
    ratio(num, 1)
}

/// A numerator and a denominator, if they have no common divisor but 1.
fn in_lowest_terms(num: i128, den: i128) -> Option<Ratio>
    requires num { unsigned_abs num ≤ most_printed }
    requires from_one { pos 1 ≤ℤ den }
    requires den { unsigned_abs den ≤ most_printed }
    ensures { result ≡ over_in num (Some (unsigned_abs den)) }
{
    let fraction = ratio(num, den);
    if fraction.den() == den {
        return Some(fraction);
    }
    None
}

/// How many bytes stand before the first slash.
fn front_len(field: &[u8]) -> usize
    ensures value { result ≡ prefix_len is_no_slash field.now }
    ensures within { result ≤ length field.now }
{
    for (i, byte) in field.iter().enumerate() {
        if *byte == b'/' {
            return i;
        }
    }
    field.len()
}

/// A fraction in lowest terms.
#[tactic(auto, unfolding(def_cert_text::specs::Numbers::fraction_in))]
pub(crate) fn fraction_in(field: &[u8]) -> Option<Ratio>
    ensures { result ≡ fraction_in most_printed field.now }
{
    let (above, behind) = field.split_at(front_len(field));
    let num = integer_in(above)?;
    match behind {
        [] => Some(over_one(num)),
        [_, below @ ..] => {
            let den = whole_in(2, MOST_PRINTED, below)?;
            in_lowest_terms(num, den as i128)
        }
    }
}

fn is_small(fraction: Ratio) -> bool
    ensures { result ≡ fits fraction }
{
    fraction.num().unsigned_abs() <= MOST_PART && fraction.den().unsigned_abs() <= MOST_PART
}

/// A fraction in lowest terms with small parts.
pub(crate) fn small_in(field: &[u8]) -> Option<Frac>
    ensures { result ≡ fraction_in most field.now }
{
    let fraction = fraction_in(field)?;
    if !is_small(fraction) {
        return None;
    }
    read_literal(field).ok()
}

/// Such a fraction that isn't 0.
#[tactic(auto, unfolding(def_cert_text::specs::Numbers::nonzero_in))]
pub(crate) fn nonzero_in(field: &[u8]) -> Option<Frac>
    ensures { result ≡ nonzero_in most field.now }
{
    let fraction = small_in(field)?;
    if fraction.is_zero() {
        return None;
    }
    Some(fraction)
}

/// A version, by its digit.
#[tactic(auto, unfolding(def_cert_text::specs::CertText::version_in))]
pub(crate) fn version_in(field: &[u8]) -> Option<TextVersion>
    ensures { result ≡ version_in field.now }
{
    match field {
        [b'1'] => Some(TextVersion::One),
        [b'2'] => Some(TextVersion::Two),
        _ => None,
    }
}
