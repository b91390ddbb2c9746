//! What the tests of several crates are given: texts, numbers and games of files.
use std::alloc::Global;
use std::process::Abort;
use xg_frac::{Frac, whole};
use xg_game::{FileFault, Game, Refused};
use xg_lex::{Text, Token, Tokens, unescape};
use xg_read::{MOST_BYTES, read_game};
use xg_test_data::is_same_fault;

/// The text of a file that is one text token.
pub fn text(rt: &impl Abort, alloc: Global, file: &[u8]) -> Text {
    let token = Tokens::new(file).next().ok().expect(rt, "a token");
    assert!(rt; token.kind == Token::Text);
    unescape(alloc, &file[token.start + 1..token.end - 1]).expect(rt, "memory")
}

pub fn number(rt: &impl Abort, n: i64) -> Frac {
    whole(n).expect(rt, "a small number")
}

/// Whether it is refused for this fault.
pub fn is_fault(refused: Option<Refused>, fault: FileFault) -> bool {
    match refused {
        Some(Refused::File(other)) => is_same_fault(other, fault),
        _ => false,
    }
}

/// The game of a file. All tests read games by this call, since each further call of the reader takes long to prove.
pub fn read(rt: &impl Abort, alloc: Global, bytes: &[u8]) -> Result<Game, Refused> {
    assert!(rt; bytes.len() <= MOST_BYTES);
    read_game(alloc, bytes)
}
