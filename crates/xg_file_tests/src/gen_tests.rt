//! Texts of generated games, and of one that is made here.
use crate::games::{number, read, text};
use std::alloc::Global;
use std::process::Abort;
use std::test::Fail;
use xg_game::{Game, GameMaker};
use xg_gen::{one_card_poker, write_game};
use xg_io::WriteFault;
use xg_memory::MemSink;
use xg_record::{EntryKind, Payoffs, Record};
use xg_test_data::files::POKER_OF_TWO;

fn poker(rt: &impl Abort, alloc: Global, cards: u32) -> Result<Game, Fail> {
    assert!(rt; 2 <= cards && cards <= 64);
    Ok(one_card_poker(alloc, cards)?)
}

fn write(rt: &impl Abort, alloc: Global, game: &Game) -> Result<MemSink, Fail> {
    let mut sink = MemSink::new(alloc, 2000, &[])?;
    assert_eq!(rt; write_game(game, &mut sink), Ok(()));
    Ok(sink)
}

/// What is written of a game.
fn written(rt: &impl Abort, alloc: Global, game: Game) -> Result<MemSink, Fail> {
    let sink = write(rt, alloc, &game);
    drop(game);
    sink
}

#[test]
fn two_cards(rt: HostRuntime) -> Result<(), Fail> {
    let sink = written(&rt, rt.alloc(), poker(&rt, rt.alloc(), 2)?)?;
    assert_eq!(rt; sink.bytes(), POKER_OF_TWO.as_bytes());
    Ok(())
}

#[test]
fn a_full_sink(rt: HostRuntime) -> Result<(), Fail> {
    let mut short = MemSink::new(rt.alloc(), 30, &[])?;
    let game = poker(&rt, rt.alloc(), 2)?;
    assert_eq!(rt; write_game(&game, &mut short), Err(WriteFault));
    drop(game);
    Ok(())
}

#[test]
fn three_cards(rt: HostRuntime) -> Result<(), Fail> {
    let game = poker(&rt, rt.alloc(), 3)?;
    assert_eq!(rt; (game.tree().len(), game.tree().leaves()), (58, 30));
    drop(game);
    Ok(())
}

/// A game of one leaf with quotation marks and backslashes in its texts, and an outcome without a name.
fn leaf_game(rt: &impl Abort, alloc: Global) -> Game {
    let title = text(rt, alloc, b"\"a \\\"b\\\" c\\d\"");
    let one = text(rt, alloc, b"\"\\\"\"");
    let two = text(rt, alloc, b"\"\"");
    let comment = text(rt, alloc, b"\"x\"");
    let mut maker = GameMaker::new(alloc, title, one, two, comment);
    let mut payoffs = Payoffs::new(alloc);
    payoffs.push(number(rt, 3)).expect(rt, "memory");
    payoffs.push(number(rt, -3)).expect(rt, "memory");
    let entry = Record {
        kind: EntryKind::Leaf,
        name: text(rt, alloc, b"\"n\""),
        player: 0,
        set: 0,
        set_name: None,
        actions: None,
        outcome: 7,
        outcome_name: None,
        payoffs: Some(payoffs),
    };
    assert!(rt; !maker.is_complete());
    maker.push(entry).expect(rt, "memory");
    assert!(rt; maker.is_complete());
    assert!(rt; !maker.is_spent());
    maker.finish()
}

const LEAF: &[u8] = b"EFG 2 R \"a \\\"b\\\" c\\d\" { \"\\\"\" \"\" }\n\"x\"\nt \"n\" 7 { 3, -3 }\n";

#[test]
fn marks_and_no_name(rt: HostRuntime) -> Result<(), Fail> {
    let sink = written(&rt, rt.alloc(), leaf_game(&rt, rt.alloc()))?;
    assert_eq!(rt; sink.bytes(), LEAF);
    Ok(())
}

/// Names with quotation marks and backslashes; a set and an outcome that later mentions describe in part.
const MARKED: &str = r#"EFG 2 D "a \"b\" c\d" { "\"" "\\x" } "say \"x\""
p "\"root\"" 1 4 "one \"set\"" { "l\"" "r\r" } 0 "null"
c "" 7 { "h" 1/2 "t" 0.5 } 3 "win \"it\"" { 1 -1 }
t "" 0
t "\\n" 3
c "" 7 "late \"coin\"" 3 { 1.0, -2/2 }
t "" 3 "win \"it\""
t "" 5 { -1, 1 }
"#;

const MARKED_WHOLE: &str = r#"EFG 2 R "a \"b\" c\d" { "\"" "\\x" }
"say \"x\""
p "\"root\"" 1 4 "one \"set\"" { "l\"" "r\r" } 0
c "" 7 "late \"coin\"" { "h" 1/2 "t" 1/2 } 3 "win \"it\"" { 1, -1 }
t "" 0
t "\\n" 3 "win \"it\"" { 1, -1 }
c "" 7 "late \"coin\"" { "h" 1/2 "t" 1/2 } 3 "win \"it\"" { 1, -1 }
t "" 3 "win \"it\"" { 1, -1 }
t "" 5 { -1, 1 }
"#;

/// What is written of the game of a file.
fn rewritten(rt: &impl Abort, alloc: Global, file: &[u8]) -> Result<MemSink, Fail> {
    written(rt, alloc, read(rt, alloc, file)?)
}

#[test]
fn what_is_written_is_read_back(rt: HostRuntime) -> Result<(), Fail> {
    let first = rewritten(&rt, rt.alloc(), MARKED.as_bytes())?;
    assert_eq!(rt; first.bytes(), MARKED_WHOLE.as_bytes());
    let second = rewritten(&rt, rt.alloc(), first.bytes())?;
    assert_eq!(rt; second.bytes(), first.bytes());
    Ok(())
}
