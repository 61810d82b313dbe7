//! The tokens of a text.
ghost use Rattle.std.specs.Prelude.{◌≡◌, ℕ, ◌+◌, ◌<◌, ◌≤◌, List, [], ◌∷◌, ◌++◌, IfOk, length, drop, slice_index};
ghost use Rattle.session_tokens.specs.Tokens.{is_blank as is_blank_byte, is_digit as is_digit_byte, is_letter as is_letter_byte, is_word_byte as is_byte_of_word, is_sign as is_sign_byte, digit_run, word_run, starts_with_byte, first_token, AreTokens};

use crate::{Kind, Token, Tokens};
use hopf_num::OutOfMemory;
use std::alloc::Global;

/// Whether a byte is a space, a tab, a line feed or a carriage return.
pub fn is_blank(byte: u8) -> bool
    ensures { result ≡ is_blank_byte byte }
{
    matches!(byte, b' ' | b'\t' | b'\n' | b'\r')
}

fn is_digit(byte: u8) -> bool
    ensures { result ≡ is_digit_byte byte }
{
    b'0' <= byte && byte <= b'9'
}

fn is_letter(byte: u8) -> bool
    ensures { result ≡ is_letter_byte byte }
{
    b'A' <= byte && byte <= b'Z' || b'a' <= byte && byte <= b'z'
}

fn is_word_byte(byte: u8) -> bool
    ensures { result ≡ is_byte_of_word byte }
{
    is_letter(byte) || is_digit(byte) || byte == b'_' || byte == b'.'
}

fn is_sign(byte: u8) -> bool
    ensures { result ≡ is_sign_byte byte }
{
    matches!(
        byte,
        b'[' | b']' | b'(' | b')' | b',' | b'+' | b'-' | b'*' | b'/' | b'#'
    )
}

// How many bytes from the front are digits.
#[tactic(auto, unfolding(crate::specs::Tokens::digit_run))]
fn digits(text: &[u8]) -> usize
    ensures count { result ≡ digit_run text.now }
    ensures within { result ≤ length text.now }
{
    let mut n = 0;
    while n < text.len() && is_digit(text[n]) {
        n += 1;
    }
    n
}

// How many bytes from the front may stand in a word.
#[tactic(auto, unfolding(crate::specs::Tokens::word_run))]
fn word_bytes(text: &[u8]) -> usize
    ensures count { result ≡ word_run text.now }
    ensures within { result ≤ length text.now }
{
    let mut n = 0;
    while n < text.len() && is_word_byte(text[n]) {
        n += 1;
    }
    n
}

fn starts_with(byte: u8, text: &[u8]) -> bool
    ensures { result ≡ starts_with_byte byte text.now }
{
    match text {
        [] => false,
        [first, ..] => *first == byte,
    }
}

// The kind and the length of the token that begins with a byte that is no blank.
fn token_at(byte: u8, rest: &[u8]) -> (Kind, usize)
    requires { length rest.now < 65536 }
    ensures same { first_token byte rest.now ≡ (result.0, result.1) }
    ensures within { result.1 ≤ 1 + length rest.now }
    ensures some { 0 < result.1 }
{
    if is_digit(byte) {
        return (Kind::Number, 1 + digits(rest));
    }
    if is_letter(byte) {
        return (Kind::Word, 1 + word_bytes(rest));
    }
    if is_sign(byte) {
        return (Kind::Sign, 1);
    }
    let may_be_doubled = byte == b':' || byte == b'=';
    if may_be_doubled && starts_with(b'=', rest) {
        return (Kind::Sign, 2);
    }
    (Kind::Other, 1)
}

/// The tokens of a text of at most 65,536 bytes, in order, and its end. Its time is linear in the
/// length of the text; it takes memory for at most a token a byte, and one more.
pub fn tokens(alloc: Global, text: &[u8]) -> Result<Tokens, OutOfMemory>
    requires { length text.now ≤ 65536 }
    ensures { IfOk result (AreTokens 1 text.now) }
{
    let items = token_list(alloc, text)?;
    Ok(Tokens::from_vec(items))
}

// The same as a vector.
fn token_list(alloc: Global, text: &[u8]) -> Result<Vec<Token>, OutOfMemory>
    requires { length text.now ≤ 65536 }
    ensures { IfOk result (λ ts. AreTokens 1 text.now ts.items) }
{
    let mut out = Vec::new(alloc);
    let mut i = 0;
    while i < text.len() {
        if is_blank(text[i]) {
            i += 1;
        } else {
            let (kind, length) = token_at(text[i], &text[i + 1..]);
            out.push(Token {
                kind,
                place: (i + 1) as u32,
                length: length as u32,
            })?;
            i += length;
        }
    }
    out.push(Token {
        kind: Kind::End,
        place: (text.len() + 1) as u32,
        length: 0,
    })?;
    Ok(out)
}
