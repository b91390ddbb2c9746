//! Weights and faults that are known from outside.
use std::alloc::{AllocError, Global};
use std::marker::{Send, Sync};
use std::process::Abort;
use std::test::Fail;
use xg_read::{MOST_BYTES, read_game};
use xg_scale::{FileFault, Refused, Weights, weigh};
use xg_test_data::files::file_of;
use xg_test_data::is_same_fault;

fn crosses_threads<T: Send + Sync>() {}

/// A game's weights, by the entries of its file.
struct Weighed {
    entries: &'static str,
    unit: u64,
    mass: u64,
    leaves: &'static [i64],
}

static WEIGHINGS: [Weighed; 17] = [
    Weighed {
        entries: r#"t "" 0"#,
        unit: 1,
        mass: 0,
        leaves: &[0],
    },
    Weighed {
        entries: r#"t "" 1 { 4611686018427387904, -4611686018427387904 }"#,
        unit: 1,
        mass: 4611686018427387904,
        leaves: &[4611686018427387904],
    },
    Weighed {
        entries: r#"t "" 1 { -4611686018427387904, 4611686018427387904 }"#,
        unit: 1,
        mass: 4611686018427387904,
        leaves: &[-4611686018427387904],
    },
    Weighed {
        entries: r#"t "" 1 { 1/4611686018427387904, -1/4611686018427387904 }"#,
        unit: 4611686018427387904,
        mass: 1,
        leaves: &[1],
    },
    Weighed {
        entries: r#"p "" 1 1 "" { "x" } 0 t "" 1 { 3, -3 }"#,
        unit: 1,
        mass: 3,
        leaves: &[3],
    },
    Weighed {
        entries: r#"c "" 1 "" { "x" 1 } 0 t "" 1 { -1/3, 1/3 }"#,
        unit: 3,
        mass: 1,
        leaves: &[-1],
    },
    Weighed {
        entries: r#"p "" 1 1 "" { "x" "y" } 0 t "" 1 { 5, -5 } t "" 2 { -5, 5 }"#,
        unit: 1,
        mass: 10,
        leaves: &[5, -5],
    },
    Weighed {
        entries: r#"p "" 1 1 "" { "x" "y" } 0 t "" 1 { 1/6, -1/6 } t "" 2 { 1/4, -1/4 }"#,
        unit: 12,
        mass: 5,
        leaves: &[2, 3],
    },
    Weighed {
        entries: r#"p "" 1 1 "" { "x" "y" } 1 "half" { 1/2, -1/2 } t "" 2 { .5, -.5 } t "" 0"#,
        unit: 2,
        mass: 3,
        leaves: &[2, 1],
    },
    Weighed {
        entries: r#"p "" 1 1 "" { "x" } 1 { 1, 1 } t "" 2 { 0, -2 }"#,
        unit: 1,
        mass: 1,
        leaves: &[1],
    },
    Weighed {
        entries: r#"p "" 1 1 "" { "H" "T" } 0 p "" 2 1 "" { "h" "t" } 0 t "" 1 { 1, -1 } t "" 2 { -1, 1 }
               p "" 2 1 0 t "" 2 t "" 1"#,
        unit: 1,
        mass: 4,
        leaves: &[1, -1, -1, 1],
    },
    Weighed {
        entries: r#"p "" 1 1 "" { "x" "y" } 0 c "" 7 "" { "h" 1/2 "t" 1/2 } 0 t "" 1 { 1, -1 } t "" 0
               c "" 7 "" { "h" 0.5 "t" 5e-1 } 0 t "" 0 t "" 2 { -1, 1 }"#,
        unit: 2,
        mass: 2,
        leaves: &[1, 0, 0, -1],
    },
    Weighed {
        entries: r#"c "" 1 "" { "a" 1/3 "b" 1/3 "c" 1/3 } 0 t "" 0 t "" 0 t "" 0"#,
        unit: 1,
        mass: 0,
        leaves: &[0, 0, 0],
    },
    Weighed {
        entries: r#"c "" 1 "" { "a" 2/3 "b" 1/3 "c" 0 } 0 t "" 0 t "" 0 t "" 1 { 1/7, -1/7 }"#,
        unit: 1,
        mass: 0,
        leaves: &[0, 0, 0],
    },
    Weighed {
        entries: r#"c "" 1 "" { "a" 1/2 "b" 1/3 "c" 1/6 } 1 { 1/2, -1/2 } t "" 2 { 2, -2 }
               p "" 2 1 "" { "x" "y" } 3 { -1, 1 } t "" 0 t "" 2 c "" 2 "" { "a" 1/4 "b" 3/4 } 3 t "" 0
               t "" 0"#,
        unit: 48,
        mass: 96,
        leaves: &[60, -8, 24, -1, -3],
    },
    Weighed {
        entries: r#"c "" 1 "" { "a" 2/3 "b" 1/3 } 0 t "" 1 { 3458764513820540928, -3458764513820540928 } t "" 0"#,
        unit: 1,
        mass: 2305843009213693952,
        leaves: &[2305843009213693952, 0],
    },
    Weighed {
        entries: r#"c "" 1 "" { "a" 1/4611686018427387904 "b" 4611686018427387903/4611686018427387904 } 0
               t "" 0 t "" 0"#,
        unit: 1,
        mass: 0,
        leaves: &[0, 0],
    },
];

/// A game's first fault, by the entries of its file.
struct Faulty {
    entries: &'static str,
    fault: FileFault,
}

static FAULTS: [Faulty; 21] = [
    Faulty {
        entries: r#"c "" 1 "" { "a" -1/2 "b" 3/2 } 0 p "" 1 1 "" { "H" "L" } 0 t "" 1 { 4, -4 }
               t "" 2 { 0, 0 } t "" 3 { 10, 2 }"#,
        fault: FileFault::ChanceNegative { node: 1 },
    },
    Faulty {
        entries: r#"c "" 1 "" { "a" 3/2 "b" -1/2 } 0 t "" 0 t "" 0"#,
        fault: FileFault::ChanceNegative { node: 1 },
    },
    Faulty {
        entries: r#"c "" 1 "" { "a" 1/2 "b" 1/3 } 0 c "" 2 "" { "a" -1/2 "b" 3/2 } 0 t "" 0 t "" 0 t "" 0"#,
        fault: FileFault::ChanceNegative { node: 2 },
    },
    Faulty {
        entries: r#"p "" 1 1 "" { "x" "y" } 0 t "" 0 c "" 1 "" { "a" 1/2 "b" 1/3 } 0 t "" 0 t "" 0"#,
        fault: FileFault::ChanceSum { node: 3 },
    },
    Faulty {
        entries: r#"c "" 1 "" { "a" .333333 "b" .333333 "c" .333333 } 0 t "" 0 t "" 0 t "" 0"#,
        fault: FileFault::ChanceSum { node: 1 },
    },
    Faulty {
        entries: r#"c "" 1 "" { "a" 2/3 "b" 2/3 } 0 t "" 0 t "" 0"#,
        fault: FileFault::ChanceSum { node: 1 },
    },
    Faulty {
        entries: r#"c "" 1 "" { "a" 1/2 "b" 1/3 } 0 t "" 1 { 1, 1 } t "" 0"#,
        fault: FileFault::ChanceSum { node: 1 },
    },
    Faulty {
        entries: r#"c "" 1 "" { "a" 1/4611686018427387904 "b" 1/4611686018427387903 "c" 1/2 } 0 t "" 0 t "" 0 t "" 0"#,
        fault: FileFault::Scale { node: 1 },
    },
    Faulty {
        entries: r#"c "" 1 "" { "a" 1/2 "b" 1/3 } 0
               c "" 2 "" { "a" 1/4611686018427387904 "b" 1/4611686018427387903 } 0 t "" 0 t "" 0
               t "" 0"#,
        fault: FileFault::ChanceSum { node: 1 },
    },
    Faulty {
        entries: r#"c "" 1 "" { "a" 1/4611686018427387904 "b" 1/4611686018427387903 } 0
               c "" 2 "" { "a" 1/2 "b" 1/3 } 0 t "" 0 t "" 0 t "" 0"#,
        fault: FileFault::Scale { node: 1 },
    },
    Faulty {
        entries: r#"c "" 1 "" { "g" 0.5 "b" 0.5 } 0 p "" 1 1 "" { "H" "L" } 0 t "" 1 { 4, -4 }
               t "" 2 { 0, 0 } t "" 3 { 10.000000 2.000000 }"#,
        fault: FileFault::NotConstantSum { node: 5 },
    },
    Faulty {
        entries: r#"p "" 1 1 "" { "x" "y" } 1 { 1, 1 } t "" 0 t "" 2 { 1, 0 }"#,
        fault: FileFault::NotConstantSum { node: 3 },
    },
    Faulty {
        entries: r#"t "" 1 { 4611686018427387904, 1 }"#,
        fault: FileFault::Scale { node: 1 },
    },
    Faulty {
        entries: r#"c "" 1 "" { "a" 1/4294967296 "b" 4294967295/4294967296 } 0 c "" 1 0 t "" 0 t "" 0 t "" 0"#,
        fault: FileFault::Scale { node: 3 },
    },
    Faulty {
        entries: r#"p "" 1 1 "" { "x" } 1 { 4611686018427387904, -4611686018427387904 } t "" 2 { 1, -1 }"#,
        fault: FileFault::Scale { node: 2 },
    },
    Faulty {
        entries: r#"p "" 1 1 "" { "x" } 1 { 0, 4611686018427387904 } p "" 2 1 "" { "x" } 2 { 0, 1 } t "" 0"#,
        fault: FileFault::Scale { node: 2 },
    },
    Faulty {
        entries: r#"c "" 1 "" { "a" 1/3 "b" 2/3 } 0 t "" 1 { 1/4611686018427387904, -1/4611686018427387904 } t "" 0"#,
        fault: FileFault::Scale { node: 2 },
    },
    Faulty {
        entries: r#"c "" 1 "" { "a" 1/3 "b" 2/3 } 0 t "" 0 t "" 1 { 1/4611686018427387904, 0 }"#,
        fault: FileFault::NotConstantSum { node: 3 },
    },
    Faulty {
        entries: r#"p "" 1 1 "" { "x" "y" } 0 t "" 1 { 1/4294967296, -1/4294967296 }
               t "" 2 { 1/4294967295, -1/4294967295 }"#,
        fault: FileFault::Scale { node: 3 },
    },
    Faulty {
        entries: r#"p "" 1 1 "" { "x" "y" } 0 t "" 1 { 2305843009213693952, -2305843009213693952 }
               t "" 2 { 2305843009213693953, -2305843009213693953 }"#,
        fault: FileFault::Scale { node: 3 },
    },
    Faulty {
        entries: r#"p "" 1 1 "" { "x" "y" "z" } 0 t "" 1 { 2305843009213693953, -2305843009213693953 }
               t "" 2 { 1, -1 } t "" 3 { 1/2, -1/2 }"#,
        fault: FileFault::Scale { node: 2 },
    },
];

fn weigh_file(rt: &impl Abort, alloc: Global, file: &str) -> Result<Weights, Refused> {
    assert!(rt; file.len() <= MOST_BYTES);
    let game = read_game(alloc, file.as_bytes())?;
    let weighed = weigh(alloc, &game);
    drop(game);
    weighed
}

/// What the file of these entries weighs.
fn weigh_entries(rt: &impl Abort, alloc: Global, entries: &str) -> Result<Weights, Refused> {
    let file = file_of(alloc, entries)?;
    weigh_file(rt, alloc, file.as_str())
}

fn weighs(rt: &impl Abort, alloc: Global, row: &Weighed) -> bool {
    let Ok(weights) = weigh_entries(rt, alloc, row.entries) else {
        return false;
    };
    let same = weights.unit() == row.unit
        && weights.mass() == row.mass
        && weights.leaves() == row.leaves;
    drop(weights);
    same
}

/// The first row that weighs something else or nothing, counted from 0.
fn first_not_weighed(rt: &impl Abort, alloc: Global, rows: &[Weighed]) -> Option<usize> {
    for (k, row) in rows.iter().enumerate() {
        if !weighs(rt, alloc, row) {
            return Some(k);
        }
    }
    None
}

#[test]
fn weighs_small_games(rt: HostRuntime) -> Result<(), Fail> {
    assert_eq!(rt; first_not_weighed(&rt, rt.alloc(), &WEIGHINGS), None);
    crosses_threads::<Weights>();
    Ok(())
}

fn refuses(rt: &impl Abort, alloc: Global, row: &Faulty) -> bool {
    match weigh_entries(rt, alloc, row.entries) {
        Err(Refused::File(fault)) => is_same_fault(fault, row.fault),
        _ => false,
    }
}

/// The first row that has another fault or none, counted from 0.
fn first_not_refused(rt: &impl Abort, alloc: Global, rows: &[Faulty]) -> Option<usize> {
    for (k, row) in rows.iter().enumerate() {
        if !refuses(rt, alloc, row) {
            return Some(k);
        }
    }
    None
}

#[test]
fn refuses_with_the_first_fault(rt: HostRuntime) -> Result<(), Fail> {
    assert_eq!(rt; first_not_refused(&rt, rt.alloc(), &FAULTS), None);
    Ok(())
}

fn push_times(entries: &mut String, entry: &str, times: u32) -> Result<(), AllocError> {
    for _ in 0..times {
        entries.push_str(entry)?;
    }
    Ok(())
}

/// Each of 300 actions leads to a toss of one coin, whose heads pay 1.
fn push_tosses(entries: &mut String) -> Result<(), AllocError> {
    entries.push_str(r#"p "" 1 1 "" { "#)?;
    push_times(entries, r#""x" "#, 300)?;
    entries.push_str(r#"} 0 c "" 1 "" { "h" 1/2 "t" 1/2 } 0 t "" 1 { 1, -1 } t "" 0 "#)?;
    push_times(entries, r#"c "" 1 0 t "" 1 t "" 0 "#, 299)
}

#[test]
fn weighs_hundreds_of_tosses(rt: HostRuntime) -> Result<(), Fail> {
    let mut entries = String::new(rt.alloc());
    push_tosses(&mut entries)?;
    let weights = weigh_entries(&rt, rt.alloc(), entries.as_str())?;
    assert!(rt; weights.unit() == 2 && weights.mass() == 300 && weights.leaves().len() == 600);
    drop(weights);
    Ok(())
}

#[test]
fn tells_what_leaves_pay_together(rt: HostRuntime) -> Result<(), Fail> {
    let weights = weigh_entries(&rt, rt.alloc(), r#"t "" 1 { 1/2, -1/3 }"#)?;
    assert!(rt; weights.unit() == 6 && weights.sum().num() == 1 && weights.sum().den() == 6);
    drop(weights);
    Ok(())
}

fn push_one_action(alloc: Global, entries: &mut String, set: u32) -> Result<(), AllocError> {
    let entry = format!(in alloc; "p \"\" 1 {set} \"\" {{ \"x\" }} 1 ")?;
    entries.push_str(entry.as_str())
}

/// Each node of a chain pays 1, and the leaf too.
fn push_chain(alloc: Global, entries: &mut String) -> Result<(), AllocError> {
    entries.push_str(r#"p "" 1 1 "" { "x" } 1 { 1, -1 } "#)?;
    for set in 2..1001 {
        push_one_action(alloc, entries, set)?;
    }
    entries.push_str(r#"t "" 1"#)
}

#[test]
fn weighs_a_long_chain(rt: HostRuntime) -> Result<(), Fail> {
    let mut entries = String::new(rt.alloc());
    push_chain(rt.alloc(), &mut entries)?;
    let weights = weigh_entries(&rt, rt.alloc(), entries.as_str())?;
    assert!(rt; weights.unit() == 1 && weights.mass() == 1001);
    drop(weights);
    Ok(())
}
