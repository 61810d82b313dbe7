//! Tests of tokens and of what they stand for.
use hopf_num::OutOfMemory;
use session_tokens::{Kind, Lexeme, NUMBER_LIMIT, Token, lexeme_of, tokens};
use std::alloc::Global;
use std::test::Fail;

/// Whether the token has this kind, place and length.
fn is_token(token: Token, kind: Kind, place: u32, length: u32) -> bool {
    token.kind == kind && token.place == place && token.length == length
}

/// Tokens, their places, and the end.
#[test]
fn tokens_of_an_assignment(rt: HostRuntime) -> Result<(), Fail> {
    let found = tokens(rt.alloc(), b"x:=1")?;
    assert_eq!(rt; found.len(), 4);
    let found = found.as_slice();
    assert!(rt; found.len() == 4);
    assert!(rt; is_token(found[0], Kind::Word, 1, 1));
    assert!(rt; is_token(found[1], Kind::Sign, 2, 2));
    assert!(rt; is_token(found[2], Kind::Number, 4, 1));
    assert!(rt; is_token(found[3], Kind::End, 5, 0));
    Ok(())
}

/// The kind of the first token of a text of one byte.
fn kind_alone(alloc: Global, byte: u8) -> Result<Option<Kind>, OutOfMemory> {
    let found = tokens(alloc, &[byte])?;
    Ok(found.as_slice().first().map(|token| token.kind))
}

/// What each byte is that stands alone.
#[test]
fn bytes_alone(rt: HostRuntime) -> Result<(), Fail> {
    for byte in 0..=255u8 {
        let kind = match byte {
            b' ' | b'\t' | b'\n' | b'\r' => Kind::End,
            b'0'..=b'9' => Kind::Number,
            b'A'..=b'Z' | b'a'..=b'z' => Kind::Word,
            b'[' | b']' | b'(' | b')' | b',' | b'+' | b'-' | b'*' | b'/' | b'#' => Kind::Sign,
            _ => Kind::Other,
        };
        assert_eq!(rt; kind_alone(rt.alloc(), byte)?, Some(kind));
    }
    Ok(())
}

/// Whether the bytes, as a word, are a basis, a function word, a reserved word or a name: 0 to 3, and
/// 4 where they are none of these.
fn sort_of_word(alloc: Global, word: &[u8]) -> Result<u8, OutOfMemory> {
    let lexeme = lexeme_of(alloc, Kind::Word, word)?;
    Ok(match &lexeme {
        Lexeme::Basis(_) => 0,
        Lexeme::Linear(_) | Lexeme::Pair | Lexeme::Along => 1,
        Lexeme::Reserved(_) => 2,
        Lexeme::Name(_) => 3,
        _ => 4,
    })
}

/// What words stand for.
#[test]
fn words(rt: HostRuntime) -> Result<(), Fail> {
    let rows: [(&[u8], u8); 12] = [
        (b"QSym.M", 0),
        (b"PBT.H", 4),
        (b"PBT.P", 0),
        (b"coproduct", 1),
        (b"pair", 1),
        (b"along", 1),
        (b"coProduct", 3),
        (b"QSym", 2),
        (b"in", 2),
        (b"inn", 3),
        (b"QSym.N", 4),
        (b"x.y", 4),
    ];
    for (word, sort) in rows {
        assert_eq!(rt; sort_of_word(rt.alloc(), word)?, sort);
    }
    Ok(())
}

/// The value of a number, as it is counted.
fn number(alloc: Global, digits: &[u8]) -> Result<u128, OutOfMemory> {
    let lexeme = lexeme_of(alloc, Kind::Number, digits)?;
    Ok(match &lexeme {
        Lexeme::Number(number) => *number,
        _ => 0,
    })
}

/// Numbers around the limit.
#[test]
fn numbers(rt: HostRuntime) -> Result<(), Fail> {
    let rows: [(&[u8], u128); 4] = [
        (b"0012", 12),
        (b"170141183460469231731687303715884105727", NUMBER_LIMIT - 1),
        (b"170141183460469231731687303715884105728", NUMBER_LIMIT),
        (b"999999999999999999999999999999999999999999", NUMBER_LIMIT),
    ];
    for (digits, value) in rows {
        assert_eq!(rt; number(rt.alloc(), digits)?, value);
    }
    Ok(())
}
