//! Game files.
use std::alloc::{AllocError, Global};

/// How a file of two players begins, with a space behind it: 23 bytes.
pub const PROLOGUE: &str = r#"EFG 2 R "" { "A" "B" } "#;

/// A file of these entries behind that.
pub fn file_of(alloc: Global, entries: &str) -> Result<String, AllocError> {
    let mut file = String::from_str(alloc, PROLOGUE)?;
    file.push_str(entries)?;
    Ok(file)
}

/// One leaf that pays nothing.
pub const ONE_LEAF: &str = r#"EFG 2 R "" { "A" "B" }
t "" 1 { 0, 0 }
"#;

/// Player one chooses between one and nothing.
pub const ONE_MOVER: &str = r#"EFG 2 R "One mover" { "A" "B" }
p "" 1 1 "a" { "L" "R" } 0
t "" 1 { 1, -1 }
t "" 2 { 0, 0 }
"#;

/// Matching pennies, where the second player doesn't see the first one's coin.
pub const PENNIES: &str = r#"EFG 2 R "Pennies" { "A" "B" }
p "" 1 1 "a" { "H" "T" } 0
p "" 2 1 "b" { "h" "t" } 0
t "" 1 "win" { 1, -1 }
t "" 2 "lose" { -1, 1 }
p "" 2 1 0
t "" 2
t "" 1
"#;

/// Two jobs of four leaves each.
pub const TWO_JOBS: &str = r#"EFG 2 R "Repeat" { "A" "B" }
c "" 9 { "a" 1/2 "b" 1/2 } 0
p "" 1 1 "a" { "x" "y" } 0
c "" 7 "coin" { "h" 1/2 "t" 1/2 } 0
t "" 1 { 1, -1 }
t "" 0
c "" 7 "coin" { "h" 0.5 "t" 5e-1 } 0
t "" 0
t "" 2 { -1, 1 }
p "" 1 11 "a" { "x" "y" } 0
c "" 17 "coin" { "h" 1/2 "t" 1/2 } 0
t "" 1 { 1, -1 }
t "" 0
c "" 17 "coin" { "h" 0.5 "t" 5e-1 } 0
t "" 0
t "" 2 { -1, 1 }
"#;

/// Two sets below another of each player, below a biased coin that nobody sees.
pub const TWICE_HIDDEN: &str = r#"EFG 2 R "Twice hidden" { "One" "Two" }
c "" 1 "coin" { "light" 1/3 "heavy" 2/3 } 0
p "" 1 1 "first" { "a" "b" "c" } 0
p "" 2 1 "answer" { "x" "y" "z" } 0
p "" 1 2 "again" { "d" "e" } 0
p "" 2 2 "again" { "u" "v" } 0
t "" 1 { -2, 2 }
t "" 2 { -3, 3 }
p "" 2 2 "again" { "u" "v" } 0
t "" 3 { 0, 0 }
t "" 4 { -3, 3 }
t "" 5 { 3, -3 }
t "" 6 { 3, -3 }
p "" 2 1 "answer" { "x" "y" "z" } 0
t "" 7 { 3, -3 }
t "" 8 { 2, -2 }
t "" 9 { -1, 1 }
p "" 2 1 "answer" { "x" "y" "z" } 0
t "" 10 { -3, 3 }
t "" 11 { 3, -3 }
t "" 12 { -4, 4 }
p "" 1 1 "first" { "a" "b" "c" } 0
p "" 2 1 "answer" { "x" "y" "z" } 0
t "" 13 { 2, -2 }
t "" 14 { 2, -2 }
t "" 15 { -4, 4 }
p "" 2 1 "answer" { "x" "y" "z" } 0
t "" 16 { 3, -3 }
p "" 1 3 "again" { "d" "e" } 0
p "" 2 3 "again" { "u" "v" } 0
t "" 17 { 0, 0 }
t "" 18 { -1, 1 }
p "" 2 3 "again" { "u" "v" } 0
t "" 19 { -3, 3 }
t "" 20 { 1, -1 }
t "" 21 { -4, 4 }
p "" 2 1 "answer" { "x" "y" "z" } 0
t "" 22 { -4, 4 }
t "" 23 { -4, 4 }
t "" 24 { 4, -4 }
"#;

/// Chance moves after both players, with decimals.
pub const WEATHER: &str =
    r#"EFG 2 R "Weather: two stalls choose umbrellas or ice before the sky is seen" { "North" "South" }
p "" 1 1 "North stocks" { "umbrellas" "ice" } 0
p "" 2 1 "South stocks" { "umbrellas" "ice" } 0
c "" 1 "sky" { "rain" 0.35 "cloud" .4 "sun" 25e-2 } 0
t "" 0
t "" 0
t "" 0
c "" 1 "sky" { "rain" 0.35 "cloud" .4 "sun" 25e-2 } 0
t "" 1 { 1.5 -1.5 }
t "" 2 { +0.25 -0.25 }
t "" 3 { -2. 2. }
p "" 2 1 "South stocks" { "umbrellas" "ice" } 0
c "" 1 "sky" { "rain" 0.35 "cloud" .4 "sun" 25e-2 } 0
t "" 4 { -1.5 1.5 }
t "" 5 { -.25 .25 }
t "" 6 { 2 -2 }
c "" 1 "sky" { "rain" 0.35 "cloud" .4 "sun" 25e-2 } 0
t "" 0
t "" 0
t "" 0
"#;

/// A card that player one alone sees.
pub const BLUFF: &str =
    r#"EFG 2 R "Bluff: one card is a winner with 1/3, its holder folds or raises by 3/2,
        the other passes or meets" { "Holder" "Caller" }
""

c "" 1 "" { "winner" 1/3 "loser" 2/3 } 0
p "" 1 1 "winner" { "raise" "fold" } 0
p "" 2 1 "raised" { "meet" "pass" } 0
t "" 1 "shown to win" { 5/2, -5/2 }
t "" 2 "passed" { 1, -1 }
t "" 3 "folded" { -1, 1 }
p "" 1 2 "loser" { "raise" "fold" } 0
p "" 2 1 "raised" { "meet" "pass" } 0
t "" 4 "shown to lose" { -5/2, 5/2 }
t "" 2 "passed" { 1, -1 }
t "" 3 "folded" { -1, 1 }
"#;

/// Outcomes at inner nodes, and a player's set behind another.
pub const TOLL: &str = r#"EFG 2 R "Toll: each step of the road costs its walker,
        who turns back or goes on to a prize" { "Walker" "Keeper" }
p "the gate" 1 1 "the gate" { "pay" "leave" } 0
p "the bridge" 2 1 "the bridge" { "open" "close" } 1 "toll of the gate" { -1, 1 }
c "the weather" 1 "the weather" { "fair" 2/3 "storm" 1/3 } 2 "toll of the bridge" { -1/2, 1/2 }
p "the hill" 1 2 "the hill" { "climb" "turn back" } 0
t "the prize" 3 "the prize" { 4, -4 }
t "half way" 0
t "washed away" 4 "lost the cart" { -2, 2 }
t "before the bridge" 5 "the keeper pays a fine" { 1/4, -1/4 }
t "home" 0
"#;

/// Player two doesn't see what chance deals, and all leaves pay both players together -5/6.
pub const SHARED: &str = r#"EFG 2 R "" { "A" "B" }
c "" 1 { "0" 1/3 "1" 2/3 } 0
p "" 1 1 { "0" "1" } 0
p "" 2 1 { "0" "1" } 0
t "" 1 { 2, -17/6 }
t "" 2 { -1, 1/6 }
p "" 2 1 { "0" "1" } 0
t "" 3 { -1/2, -1/3 }
t "" 4 { 1, -11/6 }
p "" 1 2 { "0" "1" } 0
p "" 2 1 { "0" "1" } 0
t "" 5 { -3, 13/6 }
t "" 6 { 2, -17/6 }
t "" 7 { 0, -5/6 }
"#;

/// Poker with one card each of two, in the canonical form.
pub const POKER_OF_TWO: &str = r#"EFG 2 R "One-card poker 2" { "One" "Two" }
""
c "" 1 "deal one" { "1" 1/2 "2" 1/2 } 0
c "" 2 "deal two 1" { "2" 1 } 0
p "" 1 1 "1" { "check" "bet" } 0
p "" 2 2 "2 c" { "check" "bet" } 0
t "" 2 "Two wins 1" { -1, 1 }
p "" 1 3 "1 cb" { "fold" "call" } 0
t "" 2 "Two wins 1" { -1, 1 }
t "" 4 "Two wins 2" { -2, 2 }
p "" 2 4 "2 b" { "fold" "call" } 0
t "" 1 "One wins 1" { 1, -1 }
t "" 4 "Two wins 2" { -2, 2 }
c "" 3 "deal two 2" { "1" 1 } 0
p "" 1 2 "2" { "check" "bet" } 0
p "" 2 1 "1 c" { "check" "bet" } 0
t "" 1 "One wins 1" { 1, -1 }
p "" 1 4 "2 cb" { "fold" "call" } 0
t "" 2 "Two wins 1" { -1, 1 }
t "" 3 "One wins 2" { 2, -2 }
p "" 2 3 "1 b" { "fold" "call" } 0
t "" 1 "One wins 1" { 1, -1 }
t "" 3 "One wins 2" { 2, -2 }
"#;

/// The same of three.
pub const POKER_OF_THREE: &str = r#"EFG 2 R "One-card poker 3" { "One" "Two" }
""
c "" 1 "deal one" { "1" 1/3 "2" 1/3 "3" 1/3 } 0
c "" 2 "deal two 1" { "2" 1/2 "3" 1/2 } 0
p "" 1 1 "1" { "check" "bet" } 0
p "" 2 2 "2 c" { "check" "bet" } 0
t "" 2 "Two wins 1" { -1, 1 }
p "" 1 4 "1 cb" { "fold" "call" } 0
t "" 2 "Two wins 1" { -1, 1 }
t "" 4 "Two wins 2" { -2, 2 }
p "" 2 5 "2 b" { "fold" "call" } 0
t "" 1 "One wins 1" { 1, -1 }
t "" 4 "Two wins 2" { -2, 2 }
p "" 1 1 "1" { "check" "bet" } 0
p "" 2 3 "3 c" { "check" "bet" } 0
t "" 2 "Two wins 1" { -1, 1 }
p "" 1 4 "1 cb" { "fold" "call" } 0
t "" 2 "Two wins 1" { -1, 1 }
t "" 4 "Two wins 2" { -2, 2 }
p "" 2 6 "3 b" { "fold" "call" } 0
t "" 1 "One wins 1" { 1, -1 }
t "" 4 "Two wins 2" { -2, 2 }
c "" 3 "deal two 2" { "1" 1/2 "3" 1/2 } 0
p "" 1 2 "2" { "check" "bet" } 0
p "" 2 1 "1 c" { "check" "bet" } 0
t "" 1 "One wins 1" { 1, -1 }
p "" 1 5 "2 cb" { "fold" "call" } 0
t "" 2 "Two wins 1" { -1, 1 }
t "" 3 "One wins 2" { 2, -2 }
p "" 2 4 "1 b" { "fold" "call" } 0
t "" 1 "One wins 1" { 1, -1 }
t "" 3 "One wins 2" { 2, -2 }
p "" 1 2 "2" { "check" "bet" } 0
p "" 2 3 "3 c" { "check" "bet" } 0
t "" 2 "Two wins 1" { -1, 1 }
p "" 1 5 "2 cb" { "fold" "call" } 0
t "" 2 "Two wins 1" { -1, 1 }
t "" 4 "Two wins 2" { -2, 2 }
p "" 2 6 "3 b" { "fold" "call" } 0
t "" 1 "One wins 1" { 1, -1 }
t "" 4 "Two wins 2" { -2, 2 }
c "" 4 "deal two 3" { "1" 1/2 "2" 1/2 } 0
p "" 1 3 "3" { "check" "bet" } 0
p "" 2 1 "1 c" { "check" "bet" } 0
t "" 1 "One wins 1" { 1, -1 }
p "" 1 6 "3 cb" { "fold" "call" } 0
t "" 2 "Two wins 1" { -1, 1 }
t "" 3 "One wins 2" { 2, -2 }
p "" 2 4 "1 b" { "fold" "call" } 0
t "" 1 "One wins 1" { 1, -1 }
t "" 3 "One wins 2" { 2, -2 }
p "" 1 3 "3" { "check" "bet" } 0
p "" 2 2 "2 c" { "check" "bet" } 0
t "" 1 "One wins 1" { 1, -1 }
p "" 1 6 "3 cb" { "fold" "call" } 0
t "" 2 "Two wins 1" { -1, 1 }
t "" 3 "One wins 2" { 2, -2 }
p "" 2 5 "2 b" { "fold" "call" } 0
t "" 1 "One wins 1" { 1, -1 }
t "" 3 "One wins 2" { 2, -2 }
"#;
