//! Worked rows: a text with one line changed.
use crate::reading::is_same_text_fault;
use std::alloc::Global;
use std::process::Abort;
use std::test::Fail;
use xg_check::{
    CertFault, CheckFault, FileFault, MOST_CERT_BYTES, Player, Ratio, Verdict, Which, check,
};
use xg_frac::ratio;
use xg_read::MOST_BYTES;
use xg_test_data::{certificates, files};

/// A part that stands first, and what takes its place.
pub(crate) type TextChange = (&'static str, &'static str);

/// Changes of a text, one after another, and why it is refused then.
pub(crate) type ChangedCert = (&'static [TextChange], CheckFault);

pub(crate) fn checked(
    rt: &impl Abort,
    alloc: Global,
    game: &str,
    text: &str,
) -> Result<Verdict, CheckFault> {
    assert!(rt; game.len() <= MOST_BYTES && text.len() <= MOST_CERT_BYTES);
    check(alloc, game.as_bytes(), text.as_bytes())
}

/// The text, or the file, where a part is replaced where it stands first.
fn changed(alloc: Global, text: &str, part: &str, by: &str) -> Result<String, Fail> {
    let (before, after) = text.split_once(part).ok_or("no such part")?;
    Ok(format!(in alloc; "{before}{by}{after}")?)
}

fn changed_by_all(alloc: Global, text: &str, changes: &[TextChange]) -> Result<String, Fail> {
    let mut text = String::from_str(alloc, text)?;
    for (part, by) in changes {
        text = changed(alloc, text.as_str(), part, by)?;
    }
    Ok(text)
}

/// Whether both are the same fault with the same places.
fn is_same_fault(one: CheckFault, other: CheckFault) -> bool {
    match (one, other) {
        (CheckFault::File(one), CheckFault::File(other)) => xg_test_data::is_same_fault(one, other),
        (CheckFault::Cert(one), CheckFault::Cert(other)) => is_same_text_fault(one, other),
        (CheckFault::HeadDiffers { line: one }, CheckFault::HeadDiffers { line: other }) => {
            one == other
        }
        (
            CheckFault::NotAPlan { player, set },
            CheckFault::NotAPlan {
                player: other,
                set: other_set,
            },
        ) => player == other && set == other_set,
        (
            CheckFault::ValueTooGood {
                player,
                set,
                action,
            },
            CheckFault::ValueTooGood {
                player: other,
                set: other_set,
                action: other_action,
            },
        ) => player == other && set == other_set && action == other_action,
        (
            CheckFault::ReplyNotTight { player, set },
            CheckFault::ReplyNotTight {
                player: other,
                set: other_set,
            },
        ) => player == other && set == other_set,
        (CheckFault::TotalDiffers { end: one }, CheckFault::TotalDiffers { end: other }) => {
            one == other
        }
        (CheckFault::TraceWidens { line: one }, CheckFault::TraceWidens { line: other }) => {
            one == other
        }
        (CheckFault::SecondDiffers, CheckFault::SecondDiffers) => true,
        (CheckFault::NoMemory, CheckFault::NoMemory) => true,
        _ => false,
    }
}

fn is_same_verdict(one: &Verdict, other: &Verdict) -> bool {
    match one {
        Verdict::Bounds { low, high } => {
            matches!(other, Verdict::Bounds { low: l, high: h } if l == low && h == high)
        }
        Verdict::HeadOnly => matches!(other, Verdict::HeadOnly),
    }
}

/// Whether both accept with the same bounds or without any, or both refuse for the same fault.
pub(crate) fn is_same(
    one: Result<Verdict, CheckFault>,
    other: Result<Verdict, CheckFault>,
) -> bool {
    match &one {
        Ok(verdict) => match &other {
            Ok(expected) => is_same_verdict(verdict, expected),
            Err(_) => false,
        },
        Err(fault) => match &other {
            Ok(_) => false,
            Err(expected) => is_same_fault(*fault, *expected),
        },
    }
}

/// The place of the first row that isn't refused as it says.
pub(crate) fn first_other(
    rt: &impl Abort,
    alloc: Global,
    game: &str,
    text: &str,
    rows: &[ChangedCert],
) -> Result<Option<usize>, Fail> {
    for (&(changes, fault), place) in rows.iter().zip(0..usize::MAX) {
        let text = changed_by_all(alloc, text, changes)?;
        if !is_same(checked(rt, alloc, game, text.as_str()), Err(fault)) {
            return Ok(Some(place));
        }
    }
    Ok(None)
}

pub(crate) fn bounds(low: Ratio, high: Ratio) -> Result<Verdict, CheckFault> {
    Ok(Verdict::Bounds { low, high })
}

#[test]
fn accepts(rt: HostRuntime) -> Result<(), Fail> {
    let even = bounds(ratio(0, 1), ratio(0, 1));
    assert!(rt;
        is_same(
            checked(&rt, rt.alloc(), files::PENNIES, certificates::PENNIES),
            even
        ) && is_same(
            checked(&rt, rt.alloc(), files::PENNIES, certificates::PENNIES_HEAD),
            Ok(Verdict::HeadOnly)
        ) && is_same(
            checked(&rt, rt.alloc(), files::ONE_MOVER, certificates::ONE_MOVER),
            bounds(ratio(3, 4), ratio(1, 1))
        )
    );
    Ok(())
}

#[test]
fn accepts_each_best_reply(rt: HostRuntime) -> Result<(), Fail> {
    let other = changed(
        rt.alloc(),
        certificates::PENNIES,
        "value 1 0 1",
        "value 1 0 2",
    )?;
    let even = bounds(ratio(0, 1), ratio(0, 1));
    assert!(rt;
        is_same(
            checked(&rt, rt.alloc(), files::PENNIES, other.as_str()),
            even
        )
    );
    Ok(())
}

const PENNIES_ROWS: &[ChangedCert] = &[
    (
        &[("value 1 0 1", "value 1 1 1")],
        CheckFault::ValueTooGood {
            player: Player::Two,
            set: 1,
            action: 1,
        },
    ),
    (
        &[("value 1 0 1", "value 1 -1 1")],
        CheckFault::ReplyNotTight {
            player: Player::Two,
            set: 1,
        },
    ),
    (
        &[("value 1 0 1", "value 1 0 3")],
        CheckFault::ReplyNotTight {
            player: Player::Two,
            set: 1,
        },
    ),
    (
        &[("reply 2 0", "reply 2 1")],
        CheckFault::TotalDiffers { end: Which::Lower },
    ),
    (
        &[("bracket 0 0", "bracket 0 1")],
        CheckFault::TotalDiffers { end: Which::Upper },
    ),
    (
        &[("weights 1 524288 524288", "weights 1 524288 524289")],
        CheckFault::NotAPlan {
            player: Player::One,
            set: 1,
        },
    ),
    (
        &[("plan 1 1048576", "plan 1 1048577")],
        CheckFault::NotAPlan {
            player: Player::One,
            set: 0,
        },
    ),
    (
        &[("XGCERT 1", "XGCERT 3")],
        CheckFault::Cert(CertFault::CertVersion),
    ),
    (&[("end\n", "end")], CheckFault::Cert(CertFault::CertShort)),
    (
        &[("end\n", "end\nx")],
        CheckFault::Cert(CertFault::CertTrailing { at: 248 }),
    ),
];

const MOVER_ROWS: &[ChangedCert] = &[(
    &[("trace 1 1 524288 1", "trace 1 1 1048576 1")],
    CheckFault::TraceWidens { line: 9 },
)];

#[test]
fn refuses(rt: HostRuntime) -> Result<(), Fail> {
    assert_eq!(rt;
        first_other(
            &rt,
            rt.alloc(),
            files::PENNIES,
            certificates::PENNIES,
            PENNIES_ROWS
        )?,
        None
    );
    assert_eq!(rt;
        first_other(
            &rt,
            rt.alloc(),
            files::ONE_MOVER,
            certificates::ONE_MOVER,
            MOVER_ROWS
        )?,
        None
    );
    Ok(())
}

#[test]
fn refuses_for_the_file(rt: HostRuntime) -> Result<(), Fail> {
    let heavier = changed(rt.alloc(), files::PENNIES, "{ 1, -1 }", "{ 2, -2 }")?;
    let head = CheckFault::HeadDiffers { line: 6 };
    // The file's fault comes before that of the text.
    let file = CheckFault::File(FileFault::Syntax { at: 0 });
    assert!(rt;
        is_same(
            checked(&rt, rt.alloc(), heavier.as_str(), certificates::PENNIES),
            Err(head)
        ) && is_same(checked(&rt, rt.alloc(), "NFG", "XGCERT 3\n"), Err(file))
    );
    Ok(())
}
