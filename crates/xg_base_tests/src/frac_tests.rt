//! Values from outside: the literals of the format with their values and faults, and the printed text.
use std::alloc::Global;
use std::cmp::Ordering;
use std::marker::{Send, Sync};
use std::process::Abort;
use std::test::Fail;
use xg_frac::{
    Frac, NumberFault, OverLimit, Ratio, add, compare, lcm, mul, one_over, put_frac, put_int,
    put_ratio, ratio, read_literal, read_whole, whole,
};
use xg_io::WriteFault;
use xg_memory::MemSink;

/// A literal with the parts of its value in lowest terms.
type ReadLiteral = (&'static str, i128, i128);

static LITERALS: [ReadLiteral; 25] = [
    (".50", 1, 2),
    ("-0", 0, 1),
    ("0e99", 0, 1),
    (
        "170141183460469231731687303715884105727/170141183460469231731687303715884105727",
        1,
        1,
    ),
    ("10", 10, 1),
    ("+10", 10, 1),
    ("-10", -10, 1),
    ("1/2", 1, 2),
    ("+1/2", 1, 2),
    ("-1/2", -1, 2),
    (".5", 1, 2),
    ("+.5", 1, 2),
    ("-.5", -1, 2),
    ("0.50", 1, 2),
    ("+0.50", 1, 2),
    ("-0.50", -1, 2),
    ("5.", 5, 1),
    ("+5.", 5, 1),
    ("-5.", -5, 1),
    ("5e-1", 1, 2),
    ("+5e-1", 1, 2),
    ("-5e-1", -1, 2),
    ("-2.5E+02", -250, 1),
    ("4611686018427387904", 4611686018427387904, 1),
    ("-1/4611686018427387904", -1, 4611686018427387904),
];

/// Whether bytes are read as the fraction of these parts.
fn is_read_as(bytes: &[u8], num: i128, den: i128) -> bool {
    match read_literal(bytes) {
        Ok(value) => value.num() == num && value.den() == den,
        Err(_) => false,
    }
}

/// The place of the first literal that has another value.
fn first_misread(literals: &[ReadLiteral]) -> Option<usize> {
    for (place, (text, num, den)) in literals.iter().enumerate() {
        if !is_read_as(text.as_bytes(), *num, *den) {
            return Some(place);
        }
    }
    None
}

/// What is no literal, with its fault.
type RefusedLiteral = (&'static str, NumberFault);

static REFUSED: [RefusedLiteral; 19] = [
    ("1e", NumberFault::Form),
    (".", NumberFault::Form),
    ("+", NumberFault::Form),
    ("", NumberFault::Form),
    ("1/2/3", NumberFault::Form),
    ("1/-2", NumberFault::Form),
    ("1e100", NumberFault::Form),
    ("0x1", NumberFault::Form),
    (".e1", NumberFault::Form),
    ("1.5/2", NumberFault::Form),
    ("1/0", NumberFault::ZeroDenominator),
    (
        "170141183460469231731687303715884105728/0",
        NumberFault::ZeroDenominator,
    ),
    (
        "170141183460469231731687303715884105728",
        NumberFault::Range,
    ),
    (
        "1/170141183460469231731687303715884105728",
        NumberFault::Range,
    ),
    ("0e-99", NumberFault::Range),
    ("1e99", NumberFault::Range),
    ("4611686018427387905", NumberFault::Range),
    ("-4611686018427387905", NumberFault::Range),
    ("1/4611686018427387905", NumberFault::Range),
];

fn is_refused(bytes: &[u8], fault: NumberFault) -> bool {
    match read_literal(bytes) {
        Ok(_) => false,
        Err(found) => found == fault,
    }
}

/// The place of the first text that is read, or has another fault.
fn first_taken(refused: &[RefusedLiteral]) -> Option<usize> {
    for (place, (text, fault)) in refused.iter().enumerate() {
        if !is_refused(text.as_bytes(), *fault) {
            return Some(place);
        }
    }
    None
}

#[test]
fn literals(rt: HostRuntime) {
    assert_eq!(rt; first_misread(&LITERALS), None);
    assert_eq!(rt; first_taken(&REFUSED), None);
}

#[test]
fn a_million_digits(rt: HostRuntime) -> Result<(), Fail> {
    let mut digits = vec![in rt.alloc(); b'0'; 1_000_000]?;
    assert!(rt; is_read_as(digits.as_slice(), 0, 1));
    digits.push(b'7')?;
    let sevens = digits.as_slice();
    assert!(rt; is_read_as(sevens, 7, 1) && read_whole(sevens) == Ok(7));
    assert_places(&rt, rt.alloc(), sevens)
}

#[test]
fn a_million_nines(rt: HostRuntime) -> Result<(), Fail> {
    let nines = vec![in rt.alloc(); b'9'; 1_000_000]?;
    let nines = nines.as_slice();
    assert!(rt;
        is_refused(nines, NumberFault::Range) && read_whole(nines) == Err(NumberFault::Range)
    );
    Ok(())
}

/// A million decimal places are out of range, and no number where more follows.
fn assert_places(rt: &impl Abort, alloc: Global, digits: &[u8]) -> Result<(), Fail> {
    let mut places = Vec::from_slice(alloc, b"0.")?;
    places.extend_from_slice(digits)?;
    assert!(rt; is_refused(places.as_slice(), NumberFault::Range));
    places.push(b'/')?;
    assert!(rt; is_refused(places.as_slice(), NumberFault::Form));
    Ok(())
}

/// What is read as a whole number, or its fault.
type Whole = (&'static str, Result<u64, NumberFault>);

static WHOLES: [Whole; 7] = [
    ("0", Ok(0)),
    ("0012", Ok(12)),
    ("4611686018427387904", Ok(4611686018427387904)),
    ("4611686018427387905", Err(NumberFault::Range)),
    ("", Err(NumberFault::Form)),
    ("+1", Err(NumberFault::Form)),
    ("1.0", Err(NumberFault::Form)),
];

/// The place of the first text that is read as something else.
fn first_other(wholes: &[Whole]) -> Option<usize> {
    for (place, (text, number)) in wholes.iter().enumerate() {
        if read_whole(text.as_bytes()) != *number {
            return Some(place);
        }
    }
    None
}

#[test]
fn whole_numbers(rt: HostRuntime) {
    assert_eq!(rt; first_other(&WHOLES), None);
}

fn crosses_threads<T: Send + Sync + Drop>(_value: T) {}

#[test]
fn arithmetic(rt: HostRuntime) -> Result<(), Fail> {
    let third = one_over(3);
    let two_thirds = add(third, third)?;
    assert!(rt;
        two_thirds.num() == 2
            && two_thirds.den() == 3
            && add(two_thirds, third) == whole(1)
            && mul(two_thirds, one_over(2)) == Ok(third)
            && mul(whole(-6)?, third) == whole(-2)
    );
    crosses_threads(third);
    Ok(())
}

#[test]
fn comparisons(rt: HostRuntime) -> Result<(), Fail> {
    let third = one_over(3);
    let one = mul(third, whole(3)?)?;
    assert!(rt;
        compare(third, add(third, third)?) == Ordering::Less
            && compare(whole(-1)?, whole(-2)?) == Ordering::Greater
            && compare(one, whole(1)?) == Ordering::Equal
    );
    Ok(())
}

#[test]
fn limits(rt: HostRuntime) -> Result<(), Fail> {
    let most = whole(4611686018427387904)?;
    assert!(rt;
        add(most, one_over(3)) == Err(OverLimit)
            && add(most, whole(-1)?) == whole(4611686018427387903)
            && mul(most, whole(2)?) == Err(OverLimit)
            && whole(4611686018427387905) == Err(OverLimit)
            && whole(i64::MIN) == Err(OverLimit)
    );
    Ok(())
}

/// Products whose parts are within the limit at once, or only in lowest terms.
#[test]
fn products_at_the_limit(rt: HostRuntime) -> Result<(), Fail> {
    let most = whole(4611686018427387904)?;
    let root = whole(2147483648)?;
    let third = mul(most, one_over(3))?;
    let three_halves = mul(whole(3)?, one_over(2))?;
    assert!(rt;
        mul(root, root) == Ok(most)
            && mul(root, whole(2147483649)?) == Err(OverLimit)
            && mul(most, one_over(2)) == whole(2305843009213693952)
            && mul(third, three_halves) == whole(2305843009213693952)
            && mul(third, whole(-3)?) == whole(-4611686018427387904)
    );
    Ok(())
}

#[test]
fn multiples(rt: HostRuntime) {
    assert!(rt;
        lcm(6, 4) == Ok(12)
            && lcm(4611686018427387904, 2) == Ok(4611686018427387904)
            && lcm(4611686018427387904, 3) == Err(OverLimit)
    );
}

#[test]
fn printed(rt: HostRuntime) -> Result<(), Fail> {
    let minus_three_halves = mul(one_over(2), whole(-3)?)?;
    let zero = whole(0)?;
    let mut sink = MemSink::new(rt.alloc(), 100, &[])?;
    assert!(rt;
        put_frac(one_over(2), &mut sink).is_ok()
            && put_int(-7, &mut sink).is_ok()
            && put_frac(minus_three_halves, &mut sink).is_ok()
            && put_frac(zero, &mut sink).is_ok()
            && put_int(i128::MIN, &mut sink).is_ok()
    );
    assert!(rt; sink.bytes() == b"1/2-7-3/20-170141183460469231731687303715884105728".as_slice());
    Ok(())
}

#[test]
fn printed_into_a_full_sink(rt: HostRuntime) -> Result<(), Fail> {
    let mut short = MemSink::new(rt.alloc(), 2, &[])?;
    assert!(rt;
        put_frac(one_over(2), &mut short) == Err(WriteFault) && short.bytes() == b"1/".as_slice()
    );
    Ok(())
}

/// The parts of a ratio, those of its value in lowest terms, and its text.
type RatioParts = (i128, i128, i128, i128, &'static str);

const MOST: i128 = 1_267_650_600_228_229_401_496_703_205_376;

static RATIOS: [RatioParts; 11] = [
    (0, 7, 0, 1, "0"),
    (0, MOST, 0, 1, "0"),
    (1_572_864, 2_097_152, 3, 4, "3/4"),
    (-2_621_440, 6_291_456, -5, 12, "-5/12"),
    (3_145_728, 6_291_456, 1, 2, "1/2"),
    (-12, 4, -3, 1, "-3"),
    (MOST, MOST, 1, 1, "1"),
    (-MOST, 1, -MOST, 1, "-1267650600228229401496703205376"),
    (1, MOST, 1, MOST, "1/1267650600228229401496703205376"),
    (
        MOST - 1,
        MOST,
        MOST - 1,
        MOST,
        "1267650600228229401496703205375/1267650600228229401496703205376",
    ),
    (
        -MOST,
        6,
        -633_825_300_114_114_700_748_351_602_688,
        3,
        "-633825300114114700748351602688/3",
    ),
];

fn ratio_within(num: i128, den: i128) -> Option<Ratio> {
    let most: u128 = 1 << 100;
    if num.unsigned_abs() > most || den < 1 || den.unsigned_abs() > most {
        return None;
    }
    Some(ratio(num, den))
}

fn is_printed_as(alloc: Global, r: Ratio, text: &str) -> Result<bool, Fail> {
    let mut sink = MemSink::new(alloc, 100, &[])?;
    Ok(put_ratio(r, &mut sink).is_ok() && sink.bytes() == text.as_bytes())
}

fn is_ratio(alloc: Global, row: &RatioParts) -> Result<bool, Fail> {
    let (num, den, lowest_num, lowest_den, text) = *row;
    let r = ratio_within(num, den).ok_or("past the limit")?;
    Ok(r.num() == lowest_num && r.den() == lowest_den && is_printed_as(alloc, r, text)?)
}

/// The place of the first ratio with another value or another text.
fn first_other_ratio(alloc: Global, ratios: &[RatioParts]) -> Result<Option<usize>, Fail> {
    for (place, row) in ratios.iter().enumerate() {
        if !is_ratio(alloc, row)? {
            return Ok(Some(place));
        }
    }
    Ok(None)
}

#[test]
fn ratios(rt: HostRuntime) -> Result<(), Fail> {
    assert_eq!(rt; first_other_ratio(rt.alloc(), &RATIOS)?, None);
    assert!(rt; ratio(2, 4) == ratio(1, 2));
    crosses_threads(ratio(1, 2));
    Ok(())
}

#[test]
fn a_ratio_into_a_full_sink(rt: HostRuntime) -> Result<(), Fail> {
    let mut short = MemSink::new(rt.alloc(), 3, &[])?;
    assert!(rt;
        put_ratio(ratio(-5, 12), &mut short) == Err(WriteFault)
            && short.bytes() == b"-5/".as_slice()
    );
    Ok(())
}
