//! Certificates of the games of `files`, known from outside: in version 1, and some in version 2 too.

/// Matching pennies after one round.
pub const PENNIES: &str = r#"XGCERT 1
nodes 7 leaves 4
sets 1 1
sequences 3 3
unit 1
mass 4
rounds 1 every 1 scale 1048576
trace 1 1 0 1 0
plan 1 1048576
weights 1 524288 524288
reply 2 0
value 1 0 1
plan 2 1048576
weights 1 524288 524288
reply 1 0
value 1 0 1
bracket 0 0
end
"#;

/// The same of which no round was asked.
pub const PENNIES_HEAD: &str = r#"XGCERT 1
nodes 7 leaves 4
sets 1 1
sequences 3 3
unit 1
mass 4
rounds 0 every 1 scale 1048576
end
"#;

/// The same dealt in one unit, after two rounds.
pub const PENNIES_BY_ONE_UNIT: &str = r#"XGCERT 1
nodes 7 leaves 4
sets 1 1
sequences 3 3
unit 1
mass 4
rounds 2 every 1 scale 1
trace 1 1 -1 1 1
trace 2 1 -1 2 0
plan 1 1
weights 1 0 1
reply 2 -1
value 1 -1 1
plan 2 2
weights 1 1 1
reply 1 0
value 1 0 1
bracket -1 0
end
"#;

/// The game of one mover after two rounds.
pub const ONE_MOVER: &str = r#"XGCERT 1
nodes 3 leaves 2
sets 1 0
sequences 3 1
unit 1
mass 1
rounds 2 every 1 scale 1048576
trace 1 1 524288 1 1048576
trace 2 2 1572864 1 1048576
plan 1 2097152
weights 1 1572864 524288
reply 2 1572864
plan 2 1048576
reply 1 1048576
value 1 1048576 1
bracket 3/4 1
end
"#;

/// Poker of three cards after one round.
pub const POKER_OF_THREE: &str = r#"XGCERT 1
nodes 58 leaves 30
sets 6 6
sequences 13 13
unit 6
mass 42
rounds 1 every 1 scale 1048576
trace 1 1 -2621440 1 3145728
plan 1 1048576
weights 1 524288 524288
weights 2 262144 262144
weights 3 524288 524288
weights 4 262144 262144
weights 5 524288 524288
weights 6 262144 262144
reply 2 -2621440
value 1 -524288 2
value 2 0 2
value 3 -1572864 2
value 4 -2097152 2
value 5 524288 2
value 6 1048576 1
plan 2 1048576
weights 1 524288 524288
weights 2 524288 524288
weights 3 524288 524288
weights 4 524288 524288
weights 5 524288 524288
weights 6 524288 524288
reply 1 3145728
value 1 -1048576 2
value 2 -1048576 1
value 3 1048576 2
value 4 0 2
value 5 3145728 1
value 6 2097152 2
bracket -5/12 1/2
end
"#;

/// The game that is twice hidden, after four rounds that deal ten units each.
pub const TWICE_HIDDEN: &str = r#"XGCERT 1
nodes 39 leaves 24
sets 3 3
sequences 8 8
unit 3
mass 94
rounds 4 every 1 scale 10
trace 1 1 -26 1 7
trace 2 1 -26 2 8
trace 3 3 -66 2 8
trace 4 3 -66 2 8
plan 1 30
weights 1 12 6 12
weights 2 1 11
weights 3 1 5
reply 2 -66
value 1 -66 1
value 2 -36 2
value 3 -30 1
plan 2 20
weights 1 3 3 14
weights 2 1 2
weights 3 1 2
reply 1 8
value 1 8 3
value 2 -6 2
value 3 -2 2
bracket -11/15 2/15
end
"#;

/// The certificate of matching pennies in version 2.
pub const PENNIES_IN_TWO: &str = r#"XGCERT 2
nodes 7 leaves 4
sets 1 1
sequences 3 3
unit 1
mass 4
sum 0
rounds 1 every 1 scale 1048576
trace 1 1 0 1 0
plan 1 1048576
weights 1 524288 524288
reply 2 0
value 1 0 1
plan 2 1048576
weights 1 524288 524288
reply 1 0
value 1 0 1
bracket 0 0
second 0 0
end
"#;

/// That of which no round was asked, in version 2.
pub const PENNIES_HEAD_IN_TWO: &str = r#"XGCERT 2
nodes 7 leaves 4
sets 1 1
sequences 3 3
unit 1
mass 4
sum 0
rounds 0 every 1 scale 1048576
end
"#;

/// The certificate of the game of one mover in version 2.
pub const ONE_MOVER_IN_TWO: &str = r#"XGCERT 2
nodes 3 leaves 2
sets 1 0
sequences 3 1
unit 1
mass 1
sum 0
rounds 2 every 1 scale 1048576
trace 1 1 524288 1 1048576
trace 2 2 1572864 1 1048576
plan 1 2097152
weights 1 1572864 524288
reply 2 1572864
plan 2 1048576
reply 1 1048576
value 1 1048576 1
bracket 3/4 1
second -1 -3/4
end
"#;

/// That of poker of three cards in version 2.
pub const POKER_OF_THREE_IN_TWO: &str = r#"XGCERT 2
nodes 58 leaves 30
sets 6 6
sequences 13 13
unit 6
mass 42
sum 0
rounds 1 every 1 scale 1048576
trace 1 1 -2621440 1 3145728
plan 1 1048576
weights 1 524288 524288
weights 2 262144 262144
weights 3 524288 524288
weights 4 262144 262144
weights 5 524288 524288
weights 6 262144 262144
reply 2 -2621440
value 1 -524288 2
value 2 0 2
value 3 -1572864 2
value 4 -2097152 2
value 5 524288 2
value 6 1048576 1
plan 2 1048576
weights 1 524288 524288
weights 2 524288 524288
weights 3 524288 524288
weights 4 524288 524288
weights 5 524288 524288
weights 6 524288 524288
reply 1 3145728
value 1 -1048576 2
value 2 -1048576 1
value 3 1048576 2
value 4 0 2
value 5 3145728 1
value 6 2097152 2
bracket -5/12 1/2
second -1/2 5/12
end
"#;

/// The game of one leaf, of which no round was asked, in version 2.
pub const ONE_LEAF_HEAD_IN_TWO: &str = r#"XGCERT 2
nodes 1 leaves 1
sets 0 0
sequences 1 1
unit 1
mass 0
sum 0
rounds 0 every 1 scale 1048576
end
"#;

/// The game of sum -5/6 after three rounds of scale 6.
pub const SHARED: &str = r#"XGCERT 1
nodes 13 leaves 7
sets 2 1
sequences 5 3
unit 6 sum -5/6
mass 29
rounds 3 every 1 scale 6
trace 1 1 -27 1 6
trace 2 2 -3 1 6
trace 3 3 0 1 6
plan 1 18
weights 1 15 3
weights 2 3 15
reply 2 0
value 1 0 2
plan 2 6
weights 1 3 3
reply 1 6
value 1 6 1
value 2 0 2
bracket 0 1/6
end
"#;

/// The same in version 2.
pub const SHARED_IN_TWO: &str = r#"XGCERT 2
nodes 13 leaves 7
sets 2 1
sequences 5 3
unit 6
mass 29
sum -5/6
rounds 3 every 1 scale 6
trace 1 1 -27 1 6
trace 2 2 -3 1 6
trace 3 3 0 1 6
plan 1 18
weights 1 15 3
weights 2 3 15
reply 2 0
value 1 0 2
plan 2 6
weights 1 3 3
reply 1 6
value 1 6 1
value 2 0 2
bracket 0 1/6
second -1 -5/6
end
"#;
