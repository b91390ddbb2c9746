//! Texts that are known from outside, read.
ghost use Rattle.std.specs.Prelude.{◌≡◌, ◌≤◌};
ghost use Rattle.xg_cert.specs.Printed.{set_count_in};

use def_tree::Player;
use std::alloc::{AllocError, Global};
use std::process::Abort;
use std::test::Fail;
use xg_cert::{Cert, CertFault, CertRefused, TraceRow, read_cert};
use xg_frac::{Ratio, ratio};
use xg_test_data::certificates::{
    ONE_MOVER, ONE_MOVER_IN_TWO, PENNIES, PENNIES_BY_ONE_UNIT, PENNIES_HEAD, PENNIES_HEAD_IN_TWO,
    SHARED, SHARED_IN_TWO,
};

/// How the text of matching pennies ends, behind the word of its last line but one.
const ENDS: &str = "0 0\nend\n";

/// What is known of a player: the count of sets, the plan's numbers, the reply's total, and its value and choice at the
/// first set.
#[derive(Clone, Copy, Drop)]
struct Known {
    player: Player,
    sets: u32,
    numbers: &'static [u64],
    total: i128,
    value: i128,
    choice: u32,
}

/// What is known of a certificate: the rounds, each of them a line of its trace, of the last line the lower total and
/// the upper round, and both ends.
#[derive(Clone, Copy, Drop)]
struct ReadCert {
    text: &'static str,
    rounds: u32,
    last_low: i128,
    last_high_round: u32,
    one: Known,
    two: Known,
    low: (i128, i128),
    high: (i128, i128),
}

const ROWS: &[ReadCert] = &[
    ReadCert {
        text: PENNIES,
        rounds: 1,
        last_low: 0,
        last_high_round: 1,
        one: Known {
            player: Player::One,
            sets: 1,
            numbers: &[1_048_576, 524_288, 524_288],
            total: 0,
            value: 0,
            choice: 1,
        },
        two: Known {
            player: Player::Two,
            sets: 1,
            numbers: &[1_048_576, 524_288, 524_288],
            total: 0,
            value: 0,
            choice: 1,
        },
        low: (0, 1),
        high: (0, 1),
    },
    ReadCert {
        text: ONE_MOVER,
        rounds: 2,
        last_low: 1_572_864,
        last_high_round: 1,
        one: Known {
            player: Player::One,
            sets: 1,
            numbers: &[2_097_152, 1_572_864, 524_288],
            total: 1_048_576,
            value: 1_048_576,
            choice: 1,
        },
        two: Known {
            player: Player::Two,
            sets: 0,
            numbers: &[1_048_576],
            total: 1_572_864,
            value: 0,
            choice: 1,
        },
        low: (3, 4),
        high: (1, 1),
    },
    ReadCert {
        text: PENNIES_BY_ONE_UNIT,
        rounds: 2,
        last_low: -1,
        last_high_round: 2,
        one: Known {
            player: Player::One,
            sets: 1,
            numbers: &[1, 0, 1],
            total: 0,
            value: 0,
            choice: 1,
        },
        two: Known {
            player: Player::Two,
            sets: 1,
            numbers: &[2, 1, 1],
            total: -1,
            value: -1,
            choice: 1,
        },
        low: (-1, 1),
        high: (0, 1),
    },
];

fn set_count(cert: &Cert, player: Player) -> u32
    ensures { result ≡ set_count_in player cert.now.certificate.head }
{
    match player {
        Player::One => cert.head().sets.0,
        Player::Two => cert.head().sets.1,
    }
}

fn shows(rt: &impl Abort, cert: &Cert, known: &Known)
    requires { 1 ≤ cert.now.certificate.head.rounds }
{
    let player = known.player;
    let sets = set_count(cert, player);
    let [root, weights @ ..] = known.numbers else {
        return assert!(rt; false, "a plan has a root");
    };
    assert!(rt;
        cert.numbers(player) == known.numbers
            && cert.root(player) == *root
            && cert.total(player) == known.total
            && sets == known.sets
            && cert.values(player).len() == sets as usize
            && cert.choices(player).len() == sets as usize
    );
    if sets >= 1 {
        assert!(rt;
            cert.weights(player, 1) == weights
                && cert.value(player, 1) == known.value
                && cert.choice(player, 1) == known.choice
        );
    }
}

fn is_last(trace: &[TraceRow], low: i128, high_round: u32) -> bool {
    match trace {
        [.., last] => last.low == low && last.high_round == high_round,
        [] => false,
    }
}

fn reads(rt: &impl Abort, cert: &Cert, row: &ReadCert) {
    let rounds = cert.head().rounds;
    assert!(rt; rounds == row.rounds && rounds >= 1);
    assert!(rt;
        cert.trace().len() == rounds as usize
            && is_last(cert.trace(), row.last_low, row.last_high_round)
            && (cert.low().num(), cert.low().den()) == row.low
            && (cert.high().num(), cert.high().den()) == row.high
    );
    shows(rt, cert, &row.one);
    shows(rt, cert, &row.two);
}

#[test]
fn certificates(rt: HostRuntime) {
    for row in ROWS {
        match read_cert(rt.alloc(), row.text.as_bytes()) {
            Ok(cert) => reads(&rt, &cert, row),
            Err(refused) => assert!(rt; false, "{refused:?}"),
        }
    }
}

/// What stands in place of `ENDS`, and the fault of the whole.
const FAULTS: &[(&str, CertFault)] = &[
    ("0 0\nend", CertFault::CertShort),
    ("0 0\nend\nx", CertFault::CertTrailing { at: 248 }),
    ("0/1 0\nend\n", CertFault::CertNumber { at: 240 }),
    ("2/4 0\nend\n", CertFault::CertNumber { at: 240 }),
    ("-0 0\nend\n", CertFault::CertNumber { at: 240 }),
    ("00 0\nend\n", CertFault::CertNumber { at: 240 }),
    ("0  0\nend\n", CertFault::CertNumber { at: 242 }),
    ("0 0 \nend\n", CertFault::CertSyntax { at: 243 }),
    ("0 0\nEND\n", CertFault::CertSyntax { at: 244 }),
];

/// Whether both are the same fault at the same place.
pub(crate) fn is_same_text_fault(one: CertFault, other: CertFault) -> bool {
    match (one, other) {
        (CertFault::CertSyntax { at: one }, CertFault::CertSyntax { at: other }) => one == other,
        (CertFault::CertNumber { at: one }, CertFault::CertNumber { at: other }) => one == other,
        (CertFault::CertTrailing { at: one }, CertFault::CertTrailing { at: other }) => {
            one == other
        }
        (CertFault::CertVersion, CertFault::CertVersion) => true,
        (CertFault::CertShort, CertFault::CertShort) => true,
        _ => false,
    }
}

/// Whether these bytes are refused for this fault.
pub(crate) fn is_refused(alloc: Global, bytes: &[u8], fault: CertFault) -> bool {
    match read_cert(alloc, bytes) {
        Err(CertRefused::Cert(first)) => is_same_text_fault(first, fault),
        _ => false,
    }
}

/// The first row of `FAULTS` that behind this front isn't refused as it says.
fn first_other(alloc: Global, front: &str) -> Result<Option<&'static str>, AllocError> {
    for &(rest, fault) in FAULTS {
        let text = format!(in alloc; "{front}{rest}")?;
        if !is_refused(alloc, text.as_bytes(), fault) {
            return Ok(Some(rest));
        }
    }
    Ok(None)
}

#[test]
fn faults(rt: HostRuntime) -> Result<(), Fail> {
    let front = PENNIES.strip_suffix(ENDS).ok_or("another end")?;
    assert_eq!(rt; first_other(rt.alloc(), front)?, None);
    assert!(rt;
        is_refused(rt.alloc(), b"XGCERT 3\n", CertFault::CertVersion)
            && is_refused(rt.alloc(), b"", CertFault::CertShort)
    );
    Ok(())
}

#[test]
fn a_head_alone(rt: HostRuntime) {
    for text in [PENNIES_HEAD, PENNIES_HEAD_IN_TWO] {
        match read_cert(rt.alloc(), text.as_bytes()) {
            Ok(cert) => assert!(rt; cert.head().rounds == 0 && cert.trace().is_empty()),
            Err(refused) => assert!(rt; false, "{refused:?}"),
        }
    }
}

/// Whether the text is read in this version, with this sum and this second bracket.
fn has_version(
    alloc: Global,
    text: &str,
    version: u32,
    sum: (i128, i128),
    second: Option<(Ratio, Ratio)>,
) -> bool {
    match read_cert(alloc, text.as_bytes()) {
        Ok(cert) => {
            cert.version() == version
                && (cert.sum().num(), cert.sum().den()) == sum
                && cert.head().rounds >= 1
                && cert.second() == second
        }
        Err(_) => false,
    }
}

#[test]
fn versions(rt: HostRuntime) {
    let left = Some((ratio(-1, 1), ratio(-3, 4)));
    let shared = Some((ratio(-1, 1), ratio(-5, 6)));
    assert!(rt;
        has_version(rt.alloc(), ONE_MOVER, 1, (0, 1), None)
            && has_version(rt.alloc(), ONE_MOVER_IN_TWO, 2, (0, 1), left)
            && has_version(rt.alloc(), SHARED, 1, (-5, 6), None)
            && has_version(rt.alloc(), SHARED_IN_TWO, 2, (-5, 6), shared)
    );
}
