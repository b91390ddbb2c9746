//! Certificates of two larger games, as they stand and with lines changed.
use crate::checking::{ChangedCert, bounds, checked, first_other, is_same};
use std::test::Fail;
use xg_check::{CheckFault, Player, Which};
use xg_frac::ratio;
use xg_test_data::{certificates, files};

const POKER_ROWS: &[ChangedCert] = &[
    (
        &[("value 1 -524288 2", "value 1 -524287 2")],
        CheckFault::ValueTooGood {
            player: Player::Two,
            set: 1,
            action: 2,
        },
    ),
    (
        &[("value 1 -524288 2", "value 1 -524289 2")],
        CheckFault::ReplyNotTight {
            player: Player::Two,
            set: 1,
        },
    ),
    (
        &[("weights 1 524288 524288", "weights 1 524288 524289")],
        CheckFault::NotAPlan {
            player: Player::One,
            set: 1,
        },
    ),
];

#[test]
fn lines_of_poker(rt: HostRuntime) -> Result<(), Fail> {
    let shown = bounds(ratio(-5, 12), ratio(1, 2));
    assert!(rt;
        is_same(
            checked(
                &rt,
                rt.alloc(),
                files::POKER_OF_THREE,
                certificates::POKER_OF_THREE
            ),
            shown
        )
    );
    assert_eq!(rt;
        first_other(
            &rt,
            rt.alloc(),
            files::POKER_OF_THREE,
            certificates::POKER_OF_THREE,
            POKER_ROWS
        )?,
        None
    );
    Ok(())
}

/// The first test that fails decides, wherever the other changed line stands.
const TWICE_HIDDEN_ROWS: &[ChangedCert] = &[
    (
        &[
            ("plan 1 30", "plan 1 31"),
            ("weights 2 1 11", "weights 2 2 11"),
        ],
        CheckFault::NotAPlan {
            player: Player::One,
            set: 0,
        },
    ),
    (
        &[
            ("weights 2 1 11", "weights 2 2 11"),
            ("plan 2 20", "plan 2 21"),
        ],
        CheckFault::NotAPlan {
            player: Player::One,
            set: 2,
        },
    ),
    (
        &[
            ("weights 1 12 6 12", "weights 1 13 6 12"),
            ("weights 3 1 5", "weights 3 1 5 0"),
        ],
        CheckFault::NotAPlan {
            player: Player::One,
            set: 3,
        },
    ),
    (
        &[
            ("value 1 -66 1", "value 1 -65 1"),
            ("weights 2 1 2", "weights 2 2 2"),
        ],
        CheckFault::NotAPlan {
            player: Player::Two,
            set: 2,
        },
    ),
    (
        &[("value 1 -66 1", "value 1 -65 9")],
        CheckFault::ValueTooGood {
            player: Player::Two,
            set: 1,
            action: 1,
        },
    ),
    (
        &[
            ("value 1 -66 1", "value 1 -66 9"),
            ("value 2 -36 2", "value 2 -35 2"),
        ],
        CheckFault::ReplyNotTight {
            player: Player::Two,
            set: 1,
        },
    ),
    (
        &[
            ("reply 2 -66", "reply 2 -65"),
            ("value 1 8 3", "value 1 7 3"),
        ],
        CheckFault::TotalDiffers { end: Which::Lower },
    ),
    (
        &[("value 2 -6 2", "value 2 -7 9")],
        CheckFault::ValueTooGood {
            player: Player::One,
            set: 2,
            action: 2,
        },
    ),
    (
        &[("value 2 -6 2", "value 2 -5 2")],
        CheckFault::ReplyNotTight {
            player: Player::One,
            set: 2,
        },
    ),
    (
        &[("reply 1 8", "reply 1 9"), ("value 3 -2 2", "value 3 -2 9")],
        CheckFault::ReplyNotTight {
            player: Player::One,
            set: 3,
        },
    ),
    (
        &[
            ("value 1 8 3", "value 1 7 3"),
            ("bracket -11/15 2/15", "bracket -77 2/15"),
        ],
        CheckFault::TotalDiffers { end: Which::Lower },
    ),
    (
        &[
            ("trace 1 1 -26 1 7", "trace 1 1 1000000 1 7"),
            ("bracket -11/15 2/15", "bracket -11/15 77"),
        ],
        CheckFault::TotalDiffers { end: Which::Upper },
    ),
    (
        &[
            ("trace 1 1 -26 1 7", "trace 1 1 1000000 1 7"),
            ("trace 2 1 -26 2 8", "trace 2 1 -26 2 -1000000"),
        ],
        CheckFault::TraceWidens { line: 9 },
    ),
    (
        &[
            ("trace 4 3 -66 2 8", "trace 4 3 -65 2 8"),
            ("plan 1 30", "plan 1 31"),
        ],
        CheckFault::NotAPlan {
            player: Player::One,
            set: 0,
        },
    ),
];

#[test]
fn lines_of_a_twice_hidden_game(rt: HostRuntime) -> Result<(), Fail> {
    let shown = bounds(ratio(-11, 15), ratio(2, 15));
    assert!(rt;
        is_same(
            checked(
                &rt,
                rt.alloc(),
                files::TWICE_HIDDEN,
                certificates::TWICE_HIDDEN
            ),
            shown
        )
    );
    assert_eq!(rt;
        first_other(
            &rt,
            rt.alloc(),
            files::TWICE_HIDDEN,
            certificates::TWICE_HIDDEN,
            TWICE_HIDDEN_ROWS
        )?,
        None
    );
    Ok(())
}
