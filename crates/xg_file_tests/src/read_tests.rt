//! Games and faults that are known from outside.
use crate::games::{is_fault, read};
use std::alloc::{AllocError, Global};
use std::marker::{Send, Sync};
use std::process::Abort;
use std::test::Fail;
use xg_game::{Game, Kind, Player, Refused};
use xg_lex::{LexFault, Token, Tokens};
use xg_read::{FileFault, NumberFault};
use xg_record::{Action, Actions, Payoffs};
use xg_test_data::files::{PENNIES, file_of};

/// The numbers of nodes and of leaves of a game.
fn sizes(game: Game) -> (u32, u32) {
    let sizes = (game.tree().len(), game.tree().leaves());
    drop(game);
    sizes
}

/// The numbers of nodes and of leaves of a file's game.
fn read_sizes(rt: &impl Abort, alloc: Global, bytes: &[u8]) -> Result<(u32, u32), Refused> {
    match read(rt, alloc, bytes) {
        Ok(game) => Ok(sizes(game)),
        Err(refused) => Err(refused),
    }
}

/// Whether a file has this fault.
fn is_refused(rt: &impl Abort, alloc: Global, bytes: &[u8], fault: FileFault) -> bool {
    is_fault(read_sizes(rt, alloc, bytes).err(), fault)
}

/// Whether a file's game has so many nodes and leaves.
fn is_read(rt: &impl Abort, alloc: Global, bytes: &[u8], nodes: u32, leaves: u32) -> bool {
    read_sizes(rt, alloc, bytes).ok() == Some((nodes, leaves))
}

/// What stands behind a prologue of 23 bytes, with the fault that it has.
type FaultyFile = (&'static str, FileFault);

fn is_row_refused(rt: &impl Abort, alloc: Global, row: &FaultyFile) -> Result<bool, AllocError> {
    let file = file_of(alloc, row.0)?;
    Ok(is_refused(rt, alloc, file.as_bytes(), row.1))
}

/// The place of the first row that has another fault.
fn first_other(
    rt: &impl Abort,
    alloc: Global,
    rows: &[FaultyFile],
) -> Result<Option<usize>, AllocError> {
    for (place, row) in rows.iter().enumerate() {
        if !is_row_refused(rt, alloc, row)? {
            return Ok(Some(place));
        }
    }
    Ok(None)
}

static PROLOGUES: [(&[u8], FileFault); 27] = [
    (b"", FileFault::UnexpectedEnd),
    (b" \t\n\x0b\x0c\r", FileFault::UnexpectedEnd),
    (b"NFG 2", FileFault::Syntax { at: 0 }),
    (b"\"EFG\" 2", FileFault::Syntax { at: 0 }),
    (b"EFG", FileFault::UnexpectedEnd),
    (b"EFG 3 R", FileFault::Syntax { at: 4 }),
    (b"EFG 02 R", FileFault::Syntax { at: 4 }),
    (b"EFG 2.0 R", FileFault::Syntax { at: 4 }),
    (b"EFG 1e R", FileFault::Syntax { at: 4 }),
    (b"EFG 2 Rx \"x\"", FileFault::Syntax { at: 6 }),
    (b"EFG 2 R x", FileFault::Syntax { at: 8 }),
    (b"EFG 2 R \"x", FileFault::UnexpectedEnd),
    (b"EFG 2 R \"x\\\"", FileFault::UnexpectedEnd),
    (b"EFG 2 R \"x\\\\\"", FileFault::UnexpectedEnd),
    (b"EFG 2 R \"x\" \"A", FileFault::UnexpectedEnd),
    (b"EFG 2 R \"x\" \"A\"", FileFault::Syntax { at: 12 }),
    (b"EFG 2 R \"x\" { }", FileFault::Players { count: 0 }),
    (
        b"EFG 2 D \"x\" { \"A\" } #",
        FileFault::Players { count: 1 },
    ),
    (
        b"EFG 2 R \"x\" { \"A\" \"B\" \"C\" } \"",
        FileFault::Players { count: 3 },
    ),
    (
        b"EFG 2 R \"x\" { \"A\" \"B\" \"C\" 1",
        FileFault::Syntax { at: 26 },
    ),
    (b"EFG 2 R \"x\" { \"A\" \"B", FileFault::UnexpectedEnd),
    (b"#EFG", FileFault::Syntax { at: 0 }),
    (b"EFG * 2", FileFault::Syntax { at: 4 }),
    (b"EFG 2 R \"x\" { \x80", FileFault::Syntax { at: 14 }),
    (b"EFG 2 R \"x\" { \"A\" \"B\" } ", FileFault::UnexpectedEnd),
    (
        b"EFG 2 R \"x\" { \"A\" \"B\" } \"",
        FileFault::UnexpectedEnd,
    ),
    (
        b"EFG 2 R \"x\" { \"A\" \"B\" } \"\" \"\"",
        FileFault::Syntax { at: 27 },
    ),
];

#[test]
fn faults_of_the_prologue(rt: HostRuntime) {
    for (bytes, fault) in &PROLOGUES {
        assert!(rt; is_refused(&rt, rt.alloc(), bytes, *fault));
    }
}

static TOKENS: [FaultyFile; 46] = [
    ("x", FileFault::Syntax { at: 23 }),
    ("tt", FileFault::Syntax { at: 23 }),
    ("{", FileFault::Syntax { at: 23 }),
    ("#", FileFault::Syntax { at: 23 }),
    ("t", FileFault::UnexpectedEnd),
    ("t 1", FileFault::Syntax { at: 25 }),
    ("t \"\" \"", FileFault::UnexpectedEnd),
    ("t \"\" {", FileFault::Syntax { at: 28 }),
    (
        "t \"\" -1 {",
        FileFault::Number {
            at: 28,
            fault: NumberFault::Form,
        },
    ),
    (
        "t \"\" 1.0",
        FileFault::Number {
            at: 28,
            fault: NumberFault::Form,
        },
    ),
    (
        "t \"\" 4611686018427387905 #",
        FileFault::Number {
            at: 28,
            fault: NumberFault::Range,
        },
    ),
    ("t \"\" 1 \"", FileFault::UnexpectedEnd),
    ("t \"\" 1 {", FileFault::UnexpectedEnd),
    ("t \"\" 1 { 1", FileFault::UnexpectedEnd),
    ("t \"\" 1 { , 1", FileFault::Syntax { at: 32 }),
    ("t \"\" 1 { 1,, 1", FileFault::Syntax { at: 34 }),
    ("t \"\" 1 { 1, 1, }", FileFault::Syntax { at: 38 }),
    ("t \"\" 1 { 1 \"", FileFault::UnexpectedEnd),
    ("t \"\" 1 { 1 x", FileFault::Syntax { at: 34 }),
    ("t \"\" 1 { 1 ;", FileFault::Syntax { at: 34 }),
    ("t \"\" 1 { 1, {", FileFault::Syntax { at: 35 }),
    (
        "t \"\" 1 { 1e",
        FileFault::Number {
            at: 32,
            fault: NumberFault::Form,
        },
    ),
    (
        "t \"\" 1 { 1, 1/0",
        FileFault::Number {
            at: 35,
            fault: NumberFault::ZeroDenominator,
        },
    ),
    (
        "t \"\" 1 { 4611686018427387905, 0 }",
        FileFault::Number {
            at: 32,
            fault: NumberFault::Range,
        },
    ),
    (
        "p \"\" 1 0 { \"a\" } 0",
        FileFault::Number {
            at: 30,
            fault: NumberFault::Range,
        },
    ),
    (
        "p \"\" 1 00 { \"a\" } 0",
        FileFault::Number {
            at: 30,
            fault: NumberFault::Range,
        },
    ),
    (
        "p \"\" +1 1 { \"a\" } 0",
        FileFault::Number {
            at: 28,
            fault: NumberFault::Form,
        },
    ),
    ("p \"\" \"\" 1 { \"a\" } 0", FileFault::Syntax { at: 28 }),
    ("p \"\" 1 1 \"\" \"\" 0", FileFault::Syntax { at: 35 }),
    ("p \"\" 1 1 { \"a\" 1 } 0", FileFault::Syntax { at: 38 }),
    (
        "p \"\" 1 1 { \"a\", \"b\" } 0",
        FileFault::Syntax { at: 37 },
    ),
    ("p \"\" 1 1 { \"a\" } }", FileFault::Syntax { at: 40 }),
    ("p \"\" 1 1 { \"a\" } \"b\"", FileFault::Syntax { at: 40 }),
    ("p \"\" 1 1 { \"a\"", FileFault::UnexpectedEnd),
    ("p \"\" 1 1 { \"a\" }", FileFault::UnexpectedEnd),
    ("c \"\" 1 { \"a\" \"b\" } 0", FileFault::Syntax { at: 36 }),
    ("c \"\" 1 { \"a\" } 0", FileFault::Syntax { at: 36 }),
    ("c \"\" 1 { 1 \"a\" } 0", FileFault::Syntax { at: 32 }),
    (
        "c \"\" 1 { \"a\" 1.5.0 } 0",
        FileFault::Number {
            at: 36,
            fault: NumberFault::Form,
        },
    ),
    ("c \"\" 1 { \"a\" 1", FileFault::UnexpectedEnd),
    ("c \"\" 1 1", FileFault::SetUndefined { node: 1 }),
    ("t \"\" 0 x", FileFault::TrailingText { at: 30 }),
    ("t \"\" 0 #", FileFault::TrailingText { at: 30 }),
    ("t \"\" 0 \"n\" \"", FileFault::TrailingText { at: 34 }),
    ("t \"\" 0\n}", FileFault::TrailingText { at: 30 }),
    ("t \"\" 0 \"", FileFault::UnexpectedEnd),
];

#[test]
fn faults_of_tokens(rt: HostRuntime) -> Result<(), Fail> {
    assert_eq!(rt; first_other(&rt, rt.alloc(), &TOKENS)?, None);
    Ok(())
}

static DESCRIPTIONS: [FaultyFile; 20] = [
    ("p \"\" 3 1 0", FileFault::PlayerNumber { node: 1 }),
    ("p \"\" 0 1 { } 0", FileFault::PlayerNumber { node: 1 }),
    ("p \"\" 1 1 0 #", FileFault::SetUndefined { node: 1 }),
    ("c \"\" 1 \"deal\" 7", FileFault::SetUndefined { node: 1 }),
    (
        "p \"\" 1 1 { \"a\" } 1",
        FileFault::OutcomeUndefined { node: 1 },
    ),
    (
        "p \"\" 1 1 { \"a\" } 0 \"none\" { 0 1/2 }",
        FileFault::OutcomeMismatch { node: 1 },
    ),
    (
        "p \"\" 1 1 { \"a\" } 0 { }",
        FileFault::OutcomeMismatch { node: 1 },
    ),
    (
        "p \"\" 1 1 { \"a\" } 0 { 0 0 0 }",
        FileFault::OutcomeMismatch { node: 1 },
    ),
    (
        "p \"\" 1 1 { } 9 { 1 2 3 }",
        FileFault::PayoffCount { node: 1 },
    ),
    ("p \"\" 1 1 { } 0", FileFault::ActionCount { node: 1 }),
    (
        "p \"\" 1 1 { \"a\" \"b\" } 0 p \"\" 1 1 { \"a\" } 0",
        FileFault::SetMismatch { node: 2 },
    ),
    (
        "p \"\" 1 1 { \"a\" \"b\" } 0 p \"\" 1 1 { } 0",
        FileFault::SetMismatch { node: 2 },
    ),
    (
        "p \"\" 1 1 { \"a\" \"b\" } 0 p \"\" 1 1 { \"b\" \"a\" } 0",
        FileFault::SetMismatch { node: 2 },
    ),
    (
        "p \"\" 1 1 \"\" { \"a\" } 0 p \"\" 1 1 \"s\" 0",
        FileFault::SetMismatch { node: 2 },
    ),
    (
        "p \"\" 1 1 { \"a\" } 0 p \"\" 1 1 \"s\" 0 p \"\" 1 1 \"r\" 0",
        FileFault::SetMismatch { node: 3 },
    ),
    (
        "c \"\" 7 { \"h\" 1/2 \"t\" .5 } 0 c \"\" 7 { \"h\" 0.50 \"t\" 0.51 } 0",
        FileFault::SetMismatch { node: 2 },
    ),
    (
        "c \"\" 7 { \"h\" 1 } 1 \"w\" { 1 -1 } t \"\" 1 \"v\"",
        FileFault::OutcomeMismatch { node: 2 },
    ),
    (
        "c \"\" 7 { \"h\" 1 } 1 { 1 -1 } t \"\" 1 { -1 1 }",
        FileFault::OutcomeMismatch { node: 2 },
    ),
    (
        "c \"\" 7 { \"h\" 1 } 1 { 1 -1 } t \"\" 1 { 1 }",
        FileFault::OutcomeMismatch { node: 2 },
    ),
    (
        "c \"\" 7 { \"h\" 1 } 1 { 1 -1 } t \"\" 2 { 1 } x",
        FileFault::PayoffCount { node: 2 },
    ),
];

#[test]
fn faults_of_descriptions(rt: HostRuntime) -> Result<(), Fail> {
    assert_eq!(rt; first_other(&rt, rt.alloc(), &DESCRIPTIONS)?, None);
    Ok(())
}

/// The fault of matching pennies, cut behind so many bytes: an undefined outcome where the cut leaves a whole entry.
fn fault_of_cut(len: usize) -> FileFault {
    match len {
        1 | 2 => FileFault::Syntax { at: 0 },
        90 | 91 | 96 | 97 => FileFault::OutcomeUndefined { node: 3 },
        113 | 114 | 120 | 121 => FileFault::OutcomeUndefined { node: 4 },
        103 => FileFault::Number {
            at: 102,
            fault: NumberFault::Form,
        },
        124 => FileFault::Number {
            at: 123,
            fault: NumberFault::Form,
        },
        _ => FileFault::UnexpectedEnd,
    }
}

#[test]
fn a_cut_at_each_place(rt: HostRuntime) {
    let file = PENNIES.as_bytes();
    assert!(rt; is_read(&rt, rt.alloc(), file, 7, 4));
    for len in 0..155 {
        assert!(rt; len < file.len());
        assert!(rt; is_refused(&rt, rt.alloc(), &file[..len], fault_of_cut(len)));
    }
}

/// What stands behind the prologue, with the numbers of nodes and of leaves.
type Sized = (&'static str, u32, u32);

static ACCEPTED: [Sized; 11] = [
    ("t \"\" 0", 1, 1),
    ("\"a comment\" t \"\" 00 \"none\" { 0, -0.0 }\n", 1, 1),
    ("t\"\"7\"\"{1/2,5e-1}", 1, 1),
    ("t \"\" 1 { +.5 5. }", 1, 1),
    ("t \"\" 1 { 00012/24, -4611686018427387904 } ", 1, 1),
    ("p \"\" 1 1 \"\" { \"a\" \"a\" } 0 t \"\" 0 t \"\" 0", 3, 2),
    ("p \"\" 2 4611686018427387904 { \"\" } 0 t \"\" 0", 2, 1),
    (
        "c \"\" 1 \"\" { \"a\" .333333 \"b\" .333333 \"c\" .333333 } 0 t \"\" 0 t \"\" 0 t \"\" 0",
        4,
        3,
    ),
    ("c \"\" 1 { \"a\" -1 } 0 t \"\" 0", 2, 1),
    (
        "p \"\" 1 1 \"a\" { \"x\" \"y\" } 1 \"half\" { 1/2, -1/2 } t \"\" 2 { .5, -.5 } t \"\" 0",
        3,
        2,
    ),
    (
        "p \"\" 1 9 { \"x\" \"y\" } 0 c \"\" 9 { \"h\" 1/2 \"t\" 1/2 } 0 p \"\" 2 9 { \"u\" } 0 t \"\" 9 { 1 -1 } t \"\" 9 { 1.0, -2/2 } c \"n\" 9 \"coin\" { \"h\" 5e-1 \"t\" 0.5 } 9 \"late\" t \"\" 9 \"late\" t \"\" 0",
        8,
        4,
    ),
];

fn is_row_read(rt: &impl Abort, alloc: Global, row: &Sized) -> Result<bool, AllocError> {
    let (rest, nodes, leaves) = *row;
    let file = file_of(alloc, rest)?;
    Ok(is_read(rt, alloc, file.as_bytes(), nodes, leaves))
}

#[test]
fn accepted(rt: HostRuntime) -> Result<(), Fail> {
    for row in &ACCEPTED {
        assert!(rt; is_row_read(&rt, rt.alloc(), row)?);
    }
    Ok(())
}

const NAMED: &[u8] =
    b"EFG 2 R \"a\\\"b\\c\\\\\\\"\" { \"\\\"\" \"\" } \"said\"\np \"top\" 1 8 { \"x\" \"y\" } 3 { 1/2 -1/2 }\nc \"\" 5
        \"coin\" { \"h\" 2/3 \"t\" 1/3 } 0\nt \"\" 1 { 1 -1 } t \"\" 0\nc \"\" 5 0 t \"\" 1 \"win\" t \"low\" 3";

fn is_named_game(game: &Game) -> bool {
    game.title() == b"a\"b\\c\\\\\"".as_slice()
        && game.player_name(Player::One) == b"\"".as_slice()
        && game.player_name(Player::Two) == b"".as_slice()
        && game.comment() == b"said".as_slice()
        && game.tree().len() == 7
        && game.set_count(Kind::One) == 1
        && game.set_count(Kind::Two) == 0
        && game.set_count(Kind::Chance) == 1
        && game.outcome_count() == 2
}

#[test]
fn a_game_as_its_file_says(rt: HostRuntime) -> Result<(), Fail> {
    let game = read(&rt, rt.alloc(), NAMED)?;
    let is_named = is_named_game(&game);
    drop(game);
    assert!(rt; is_named);
    Ok(())
}

/// A node of player one with so many actions, each of which leads to a leaf.
fn wide(alloc: Global, actions: u32) -> Result<String, AllocError> {
    let mut file = file_of(alloc, "p \"\" 1 1 \"\" {")?;
    for _ in 0..actions {
        file.push_str(" \"\"")?;
    }
    file.push_str(" } 0\n")?;
    for _ in 0..actions {
        file.push_str("t \"\" 0\n")?;
    }
    Ok(file)
}

#[test]
fn most_actions(rt: HostRuntime) -> Result<(), Fail> {
    let file = wide(rt.alloc(), 1_024)?;
    assert!(rt; is_read(&rt, rt.alloc(), file.as_bytes(), 1_025, 1_024));
    Ok(())
}

#[test]
fn too_many_actions(rt: HostRuntime) -> Result<(), Fail> {
    let file = wide(rt.alloc(), 1_025)?;
    assert!(rt;
        is_refused(
            &rt,
            rt.alloc(),
            file.as_bytes(),
            FileFault::ActionCount { node: 1 }
        )
    );
    Ok(())
}

/// So many nodes of player one in one set, one below the other, with no leaf.
fn chain(alloc: Global, nodes: u32) -> Result<String, AllocError> {
    let mut file = file_of(alloc, "p \"\" 1 1 { \"\" } 0\n")?;
    for _ in 1..nodes {
        file.push_str("p \"\" 1 1 0\n")?;
    }
    Ok(file)
}

#[test]
fn most_nodes(rt: HostRuntime) -> Result<(), Fail> {
    let mut file = chain(rt.alloc(), 1_048_576)?;
    assert!(rt; is_refused(&rt, rt.alloc(), file.as_bytes(), FileFault::UnexpectedEnd));
    file.push_str("t \"\" 0")?;
    assert!(rt; is_refused(&rt, rt.alloc(), file.as_bytes(), FileFault::TooManyNodes));
    file.push_str(" { 1 }")?;
    let fault = FileFault::OutcomeMismatch { node: 1_048_577 };
    assert!(rt; is_refused(&rt, rt.alloc(), file.as_bytes(), fault));
    Ok(())
}

fn crosses_threads<T: Send + Sync + Drop>() {}

#[test]
fn plain_data_crosses_threads() {
    crosses_threads::<Token>();
    crosses_threads::<LexFault>();
    crosses_threads::<Tokens>();
    crosses_threads::<FileFault>();
    crosses_threads::<Refused>();
    crosses_threads::<Action>();
    crosses_threads::<Actions>();
    crosses_threads::<Payoffs>();
    crosses_threads::<Game>();
}
