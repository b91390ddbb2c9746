//! Reading number literals and whole numbers.
ghost use Rattle.std.specs.Prelude.{◌≡◌, ◌+◌, ◌-◌, ◌*◌, ◌^◌, ◌<◌, ◌≤◌, ◌≢◌, ◌↔◌, ◌&&◌, nat_lt, if◌then◌else◌};
ghost use Rattle.std.specs.Prelude.{Some, None, IfSome, min, length, Err, IsTrue, IsFalse, IfOk};
ghost use Rattle.std.specs.Option.{option_map};
ghost use Rattle.def_fraction.specs.Digits.{is_numeral, number_of, leading_digits, after_digits};
ghost use Rattle.def_fraction.specs.Fraction.{most};
ghost use Rattle.def_fraction.specs.Literal.{is_minus, IsNoLiteral, HasZeroDenominator, IsPastLimits, IsLiteralOf};
ghost use Rattle.def_fraction.specs.Reading.{sign_of, after_sign, body_of, power_of, read_as_literal, read_as_whole};
ghost use Rattle.xg_frac.specs.Scan.{ScansPart, capped, quotient_of, decimal_quotient, exponent_of, past_all};

use crate::fraction::{Frac, reduced};
use def_fraction::{MOST_PART, MOST_WRITTEN, NumberFault};

/// Reads a literal: a fraction, or a decimal with or without a point and a power of ten, with or without a sign.
/// Leading zeros may be as many as there are. Of several faults the first in the order of `NumberFault` is the answer.
pub fn read_literal(bytes: &[u8]) -> Result<Frac, NumberFault>
    ensures exact { result ≡ read_as_literal bytes.now }

    ensures value { IfOk result (IsLiteralOf bytes.now) }
    ensures form { (result ≡ Err NumberFault.Form) ↔ IsNoLiteral bytes.now }
    ensures zero_denominator { (result ≡ Err NumberFault.ZeroDenominator)
        ↔ HasZeroDenominator bytes.now }
    ensures range { (result ≡ Err NumberFault.Range) ↔ IsPastLimits bytes.now }
{
    read_exactly(bytes)
}

fn read_exactly(bytes: &[u8]) -> Result<Frac, NumberFault>
    ensures { result ≡ read_as_literal bytes.now }
{
    let signed = split_sign(bytes);
    let Some(parts) = read_body(signed.rest) else {
        return Err(NumberFault::Form);
    };
    if parts.den == 0 {
        return Err(NumberFault::ZeroDenominator);
    }
    if parts.num >= PAST || parts.den >= PAST {
        return Err(NumberFault::Range);
    }
    reduced(signed.negative, parts.num, parts.den).ok_or(NumberFault::Range)
}

/// Reads a whole number, which is one or more digits with a value of at most 2^62. Never answers `ZeroDenominator`.
#[tactic(auto, unfolding(def_fraction::specs::Reading::read_as_whole))]
pub fn read_whole(bytes: &[u8]) -> Result<u64, NumberFault>
    ensures exact { result ≡ read_as_whole bytes.now }

    ensures value { IfOk result (λ n. n ≡ number_of bytes.now) }
    ensures form { (result ≡ Err NumberFault.Form) ↔ IsFalse (is_numeral bytes.now) }
    ensures range { (result ≡ Err NumberFault.Range)
        ↔ (IsTrue (is_numeral bytes.now) × (most < number_of bytes.now)) }
    ensures other { result ≢ Err NumberFault.ZeroDenominator }
{
    let Some(number) = scan_numeral(bytes) else {
        return Err(NumberFault::Form);
    };
    if number > MOST_PART {
        return Err(NumberFault::Range);
    }
    Ok(number as u64)
}

/// One past the greatest numerator and denominator before reduction. While a number is read it stands for all greater
/// ones, so that nothing overflows.
pub const PAST: u128 = MOST_WRITTEN + 1;

/// A number below this one still fits 64 bits with a digit more.
const SHORT: u64 = 1_000_000_000_000_000_000;

#[derive(Clone, Copy)]
struct Signed<'a> {
    negative: bool,
    rest: &'a [u8],
}

/// The digits at the head of some bytes: the number that they write after the digits before them, how many they are,
/// and what follows them.
#[derive(Clone, Copy)]
struct Digits<'a> {
    number: u128,
    len: usize,
    rest: &'a [u8],
}

/// A numerator and a denominator before reduction.
#[derive(Clone, Copy)]
struct Quotient {
    num: u128,
    den: u128,
}

/// The exponent of a power of ten, which is `raised - lowered`.
#[derive(Clone, Copy)]
struct Exponent {
    raised: usize,
    lowered: usize,
}

fn split_sign(bytes: &[u8]) -> Signed
    ensures negative { result.negative ≡ is_minus (sign_of bytes.now) }
    ensures rest { result.rest.now ≡ after_sign bytes.now }
{
    match bytes {
        [b'+', rest @ ..] => Signed {
            negative: false,
            rest,
        },
        [b'-', rest @ ..] => Signed {
            negative: true,
            rest,
        },
        _ => Signed {
            negative: false,
            rest: bytes,
        },
    }
}

/// The digits at the head of the bytes, which go on from the number `start`.
fn scan_digits(start: u128, bytes: &[u8]) -> Digits
    requires { start ≤ past_all }
    ensures number { result.number ≡ capped start (leading_digits bytes.now) }
    ensures len { result.len ≡ length (leading_digits bytes.now) }
    ensures short { result.len < 2 ^ 63 }
    ensures rest { result.rest.now ≡ after_digits bytes.now }
{
    let short = scan_short(start, bytes);
    let wide = scan_wide(short.number, short.rest);
    Digits {
        number: wide.number,
        len: short.len + wide.len,
        rest: wide.rest,
    }
}

/// The same up to a digit with which the number might not fit 64 bits. Nearly all numbers are read here alone.
fn scan_short(start: u128, bytes: &[u8]) -> Digits
    requires { start ≤ past_all }
    ensures { ScansPart start bytes.now result.number result.len result.rest.now }
{
    if start >= SHORT as u128 {
        return Digits {
            number: start,
            len: 0,
            rest: bytes,
        };
    }
    let mut number = start as u64;
    let mut len = 0;
    for byte in bytes {
        if !byte.is_ascii_digit() || number >= SHORT {
            break;
        }
        number = number * 10 + (*byte - b'0') as u64;
        len += 1;
    }
    Digits {
        number: number as u128,
        len,
        rest: &bytes[len..],
    }
}

/// The same in 128 bits.
fn scan_wide(start: u128, bytes: &[u8]) -> Digits
    requires { start ≤ past_all }
    ensures number { result.number ≡ capped start (leading_digits bytes.now) }
    ensures len { result.len ≡ length (leading_digits bytes.now) }
    ensures short { result.len < 2 ^ 63 }
    ensures rest { result.rest.now ≡ after_digits bytes.now }
{
    let mut number = start;
    let mut len = 0;
    for byte in bytes {
        if !byte.is_ascii_digit() {
            break;
        }
        let digit = (*byte - b'0') as u128;
        number = number.saturating_mul(10).saturating_add(digit).min(PAST);
        len += 1;
    }
    Digits {
        number,
        len,
        rest: &bytes[len..],
    }
}

/// The number that the bytes write, if all are digits and there is at least one.
fn scan_numeral(bytes: &[u8]) -> Option<u128>
    ensures { result ≡ (if is_numeral bytes.now then Some (min (number_of bytes.now) past_all) else None) }
{
    let digits = scan_digits(0, bytes);
    if digits.len == 0 || digits.len < bytes.len() {
        return None;
    }
    Some(digits.number)
}

#[tactic(auto, unfolding(def_fraction::specs::Reading::body_of, def_fraction::specs::Reading::body_after))]
fn read_body(bytes: &[u8]) -> Option<Quotient>
    ensures { result ≡ option_map quotient_of (body_of bytes.now) }
{
    let before = scan_digits(0, bytes);
    let [first, rest @ ..] = before.rest else {
        return read_power(before.number, before.len, 0, before.rest);
    };
    match *first {
        b'/' => read_below(before.number, before.len, rest),
        b'.' => {
            let after = scan_digits(before.number, rest);
            read_power(after.number, before.len + after.len, after.len, after.rest)
        }
        _ => read_power(before.number, before.len, 0, before.rest),
    }
}

/// The quotient of the number that was written with so many digits and of the number in the bytes.
fn read_below(num: u128, digits: usize, bytes: &[u8]) -> Option<Quotient>
    ensures { result ≡ (if nat_lt 0 digits && is_numeral bytes.now
        then Some (record { num = num; den = min (number_of bytes.now) past_all })
        else None) }
{
    if digits == 0 {
        return None;
    }
    let den = scan_numeral(bytes)?;
    Some(Quotient { num, den })
}

/// The decimal that was written with so many digits, of which `places` stand after the point, and with the power in the
/// bytes.
fn read_power(number: u128, digits: usize, places: usize, bytes: &[u8]) -> Option<Quotient>
    requires number { number ≤ past_all }
    requires places { places < 2 ^ 63 }
    ensures { result ≡ (if nat_lt 0 digits
        then option_map (decimal_quotient number places) (power_of bytes.now)
        else None) }
{
    if digits == 0 {
        return None;
    }
    let exponent = read_exponent(bytes)?;
    let lowered = places + exponent.lowered;
    Some(Quotient {
        num: times_power_of_ten(number, exponent.raised.saturating_sub(lowered)),
        den: times_power_of_ten(1, lowered.saturating_sub(exponent.raised)),
    })
}

#[tactic(auto, unfolding(def_fraction::specs::Reading::power_of))]
fn read_exponent(bytes: &[u8]) -> Option<Exponent>
    ensures value { result ≡ option_map exponent_of (power_of bytes.now) }
    ensures raised { IfSome result (λ e. e.raised < 100) }
    ensures lowered { IfSome result (λ e. e.lowered < 100) }
{
    let [letter, rest @ ..] = bytes else {
        return Some(Exponent {
            raised: 0,
            lowered: 0,
        });
    };
    let signed = split_sign(rest);
    if (*letter != b'e' && *letter != b'E') || signed.rest.len() > 2 {
        return None;
    }
    let size = scan_numeral(signed.rest)? as usize;
    Some(if signed.negative {
        Exponent {
            raised: 0,
            lowered: size,
        }
    } else {
        Exponent {
            raised: size,
            lowered: 0,
        }
    })
}

fn times_power_of_ten(n: u128, exponent: usize) -> u128
    requires { n ≤ past_all }
    ensures { result ≡ min (n * 10 ^ exponent) past_all }
{
    if n == 0 || exponent == 0 {
        return n;
    }
    if exponent > 38 {
        return PAST;
    }
    n.saturating_mul(10u128.pow(exponent as u32)).min(PAST)
}
