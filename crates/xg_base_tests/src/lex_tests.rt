//! Tokens of small files, and texts.
use std::test::Fail;
use xg_lex::{LexFault, TextView, Token, Tokens, unescape};

/// A token with the place where it starts and the one where it ends.
type LexemeAt = (Token, usize, usize);

fn is_next(tokens: &mut Tokens, kind: Token, start: usize, end: usize) -> bool {
    match tokens.next() {
        Ok(next) => next.kind == kind && next.start == start && next.end == end,
        Err(_) => false,
    }
}

fn is_syntax(tokens: &mut Tokens, at: usize) -> bool {
    match tokens.next() {
        Err(LexFault::Syntax { at: place }) => place == at,
        _ => false,
    }
}

fn is_unclosed(tokens: &mut Tokens, at: usize) -> bool {
    match tokens.next() {
        Err(LexFault::Unclosed { at: place }) => place == at,
        _ => false,
    }
}

/// The place of the first token that isn't the expected one.
fn first_other(tokens: &mut Tokens, expected: &[LexemeAt]) -> Option<usize> {
    for (place, (kind, start, end)) in expected.iter().enumerate() {
        if !is_next(tokens, *kind, *start, *end) {
            return Some(place);
        }
    }
    None
}

static EACH_KIND: [LexemeAt; 12] = [
    (Token::Word, 0, 3),
    (Token::Number, 4, 5),
    (Token::Word, 6, 7),
    (Token::Text, 8, 17),
    (Token::Open, 18, 19),
    (Token::Comma, 19, 20),
    (Token::Close, 20, 21),
    (Token::Number, 22, 26),
    (Token::Comma, 26, 27),
    (Token::Number, 27, 29),
    (Token::End, 29, 29),
    (Token::End, 29, 29),
];

#[test]
fn reads_tokens_and_the_end_again(rt: HostRuntime) {
    let mut tokens = Tokens::new(b"EFG 2\tR\n\"a \\\"b\\c\" {,} -1/2,.5");
    assert_eq!(rt; first_other(&mut tokens, &EACH_KIND), None);
}

#[test]
fn a_fault_stays(rt: HostRuntime) {
    let mut tokens = Tokens::new(b" } #");
    assert!(rt;
        is_next(&mut tokens, Token::Close, 1, 2)
            && is_syntax(&mut tokens, 3)
            && is_syntax(&mut tokens, 3)
    );
    let mut tokens = Tokens::new(b"{\"a\\\"");
    assert!(rt;
        is_next(&mut tokens, Token::Open, 0, 1)
            && is_unclosed(&mut tokens, 1)
            && is_unclosed(&mut tokens, 1)
    );
}

#[test]
fn the_next_byte_stands_behind_white_space(rt: HostRuntime) {
    let mut tokens = Tokens::new(b"word \t\n\"text\" # \r");
    assert!(rt;
        tokens.next_byte() == Some(b'w')
            && is_next(&mut tokens, Token::Word, 0, 4)
            && tokens.next_byte() == Some(b'"')
            && tokens.next_byte() == Some(b'"')
            && is_next(&mut tokens, Token::Text, 7, 13)
            && tokens.next_byte() == Some(b'#')
            && is_syntax(&mut tokens, 14)
            && tokens.next_byte() == Some(b'#')
    );
    let mut tokens = Tokens::new(b" } \x0b\x0c");
    assert!(rt;
        tokens.next_byte() == Some(b'}')
            && is_next(&mut tokens, Token::Close, 1, 2)
            && tokens.next_byte().is_none()
            && is_next(&mut tokens, Token::End, 5, 5)
            && tokens.next_byte().is_none()
    );
}

#[test]
fn unescapes(rt: HostRuntime) -> Result<(), Fail> {
    let bytes = b"\"\\\\\"a\\b\\\"\"";
    let lexeme = Tokens::new(bytes).next().ok().ok_or("no token")?;
    assert!(rt; lexeme.kind == Token::Text);
    let text = unescape(rt.alloc(), &bytes[lexeme.start + 1..lexeme.end - 1])?;
    assert!(rt; text.bytes() == b"\\\"a\\b\"".as_slice());
    Ok(())
}

#[test]
fn a_text_is_compared_where_it_stands(rt: HostRuntime) -> Result<(), Fail> {
    let bytes = b"\"a\\\"b\\\\\"\" \"a\\b\"";
    let mut tokens = Tokens::new(bytes);
    let lexeme = tokens.next().ok().ok_or("no token")?;
    assert!(rt; lexeme.kind == Token::Text);
    let text = TextView::of(&bytes[lexeme.start + 1..lexeme.end - 1]);
    assert!(rt;
        text.plain().is_none()
            && text.is(b"a\"b\\\"")
            && !text.is(b"a\"b\\")
            && !text.is(b"a\"b\\\"\"")
            && !text.is(b"a\\\"b\\\\\"")
    );
    let lexeme = tokens.next().ok().ok_or("no token")?;
    assert!(rt; lexeme.kind == Token::Text);
    let text = TextView::of(&bytes[lexeme.start + 1..lexeme.end - 1]);
    assert!(rt; text.plain().is_some() && text.is(b"a\\b") && !text.is(b"ab"));
    Ok(())
}
