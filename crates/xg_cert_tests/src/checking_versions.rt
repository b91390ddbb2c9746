//! Both versions of a text: what the lines of version 2 change, and the upgrade of what is accepted.
use crate::checking::{ChangedCert, bounds, checked, first_other, is_same};
use std::alloc::{AllocError, Global};
use std::process::Abort;
use std::test::Fail;
use xg_cert::write_upgraded;
use xg_check::{CheckFault, MOST_CERT_BYTES, Verdict, Which, accept};
use xg_frac::ratio;
use xg_memory::MemSink;
use xg_read::MOST_BYTES;
use xg_test_data::{certificates, files};

#[test]
fn accepts_both_versions(rt: HostRuntime) -> Result<(), Fail> {
    let even = bounds(ratio(0, 1), ratio(0, 1));
    let shared = bounds(ratio(0, 1), ratio(1, 6));
    let head = Ok(Verdict::HeadOnly);
    assert!(rt;
        is_same(
            checked(
                &rt,
                rt.alloc(),
                files::PENNIES,
                certificates::PENNIES_IN_TWO
            ),
            even
        ) && is_same(
            checked(
                &rt,
                rt.alloc(),
                files::PENNIES,
                certificates::PENNIES_HEAD_IN_TWO
            ),
            head
        ) && is_same(
            checked(&rt, rt.alloc(), files::SHARED, certificates::SHARED),
            shared
        ) && is_same(
            checked(&rt, rt.alloc(), files::SHARED, certificates::SHARED_IN_TWO),
            shared
        )
    );
    Ok(())
}

/// Line 5 has the sum, and the trace begins at line 8.
const VERSION_ONE_ROWS: &[ChangedCert] = &[
    (
        &[("unit 6 sum -5/6", "unit 6 sum -1/6")],
        CheckFault::HeadDiffers { line: 5 },
    ),
    (
        &[("trace 1 1 -27 1 6", "trace 1 1 27 1 6")],
        CheckFault::TraceWidens { line: 9 },
    ),
];

/// Line 7 has the sum, and the trace begins at line 9. The second bracket is judged last of all.
const VERSION_TWO_ROWS: &[ChangedCert] = &[
    (
        &[("sum -5/6", "sum 0"), ("unit 6", "unit 12")],
        CheckFault::HeadDiffers { line: 5 },
    ),
    (
        &[("sum -5/6", "sum 0"), ("mass 29", "mass 28")],
        CheckFault::HeadDiffers { line: 6 },
    ),
    (
        &[("sum -5/6", "sum 0"), ("second -1 -5/6", "second -1/6 0")],
        CheckFault::HeadDiffers { line: 7 },
    ),
    (
        &[
            ("reply 2 0", "reply 2 1"),
            ("second -1 -5/6", "second -1 0"),
        ],
        CheckFault::TotalDiffers { end: Which::Lower },
    ),
    (
        &[
            ("trace 1 1 -27 1 6", "trace 1 1 27 1 6"),
            ("second -1 -5/6", "second -1 0"),
        ],
        CheckFault::TraceWidens { line: 10 },
    ),
    (
        &[("second -1 -5/6", "second -1 -5/7")],
        CheckFault::SecondDiffers,
    ),
    (
        &[("second -1 -5/6", "second -2 -5/6")],
        CheckFault::SecondDiffers,
    ),
    (
        &[("second -1 -5/6", "second -5/6 -1")],
        CheckFault::SecondDiffers,
    ),
    // The sum with the ends added.
    (
        &[("second -1 -5/6", "second -5/6 -2/3")],
        CheckFault::SecondDiffers,
    ),
];

#[test]
fn refuses_by_the_lines_of_its_version(rt: HostRuntime) -> Result<(), Fail> {
    assert_eq!(rt;
        first_other(
            &rt,
            rt.alloc(),
            files::SHARED,
            certificates::SHARED,
            VERSION_ONE_ROWS
        )?,
        None
    );
    assert_eq!(rt;
        first_other(
            &rt,
            rt.alloc(),
            files::SHARED,
            certificates::SHARED_IN_TWO,
            VERSION_TWO_ROWS
        )?,
        None
    );
    Ok(())
}

/// Whether the text is accepted, and written as this one in version 2.
fn is_upgraded_to(
    rt: &impl Abort,
    alloc: Global,
    game: &str,
    text: &str,
    in_two: &str,
) -> Result<bool, AllocError> {
    assert!(rt; game.len() <= MOST_BYTES && text.len() <= MOST_CERT_BYTES);
    let mut sink = MemSink::new(alloc, 512, &[])?;
    match accept(alloc, game.as_bytes(), text.as_bytes()) {
        Ok(accepted) => Ok(
            write_upgraded(&accepted.cert, &mut sink).is_ok() && sink.bytes() == in_two.as_bytes(),
        ),
        Err(_) => Ok(false),
    }
}

#[test]
fn upgrades_what_is_accepted(rt: HostRuntime) -> Result<(), Fail> {
    for (game, text, in_two) in [
        (
            files::SHARED,
            certificates::SHARED,
            certificates::SHARED_IN_TWO,
        ),
        (
            files::SHARED,
            certificates::SHARED_IN_TWO,
            certificates::SHARED_IN_TWO,
        ),
        (
            files::PENNIES,
            certificates::PENNIES,
            certificates::PENNIES_IN_TWO,
        ),
        (
            files::PENNIES,
            certificates::PENNIES_HEAD,
            certificates::PENNIES_HEAD_IN_TWO,
        ),
        (
            files::ONE_MOVER,
            certificates::ONE_MOVER,
            certificates::ONE_MOVER_IN_TWO,
        ),
    ] {
        assert!(rt; is_upgraded_to(&rt, rt.alloc(), game, text, in_two)?);
    }
    Ok(())
}

#[test]
fn upgrades_no_other(rt: HostRuntime) -> Result<(), Fail> {
    let (text, in_two) = (certificates::SHARED, certificates::SHARED_IN_TWO);
    assert!(rt; !is_upgraded_to(&rt, rt.alloc(), files::PENNIES, text, in_two)?);
    Ok(())
}
