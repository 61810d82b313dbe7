//! What the tokens of a text stand for.
ghost use Rattle.std.specs.Prelude.{◌≡◌, IfOk};
ghost use Rattle.session_tokens.specs.Lexemes.{bytes_of as bytes_of_token, lexemes_of as lexemes_of_tokens};

use crate::{Lexeme, Token, lexeme_of};
use hopf_num::OutOfMemory;
use std::alloc::Global;

// The bytes of a token.
fn bytes_of(text: &[u8], token: Token) -> &[u8]
    ensures { result.now ≡ bytes_of_token text.now token }
{
    let start = (token.place as usize).saturating_sub(1).min(text.len());
    let rest = &text[start..];
    let length = (token.length as usize).min(rest.len());
    &rest[..length]
}

/// What the tokens of a text stand for, without the last one, which is the end. Its time is linear in
/// the lengths of the tokens together; it takes memory for a lexeme a token and for the bytes of
/// names and of reserved words.
pub fn lexemes_of(alloc: Global, text: &[u8], tokens: &[Token]) -> Result<Vec<Lexeme>, OutOfMemory>
    ensures { IfOk result (λ lexemes. lexemes.items ≡ lexemes_of_tokens text.now tokens.now) }
{
    let count = tokens.len().saturating_sub(1);
    let mut lexemes = Vec::with_capacity(alloc, count)?;
    for place in 0..count {
        let token = tokens[place];
        lexemes.push(lexeme_of(alloc, token.kind, bytes_of(text, token))?)?;
    }
    Ok(lexemes)
}
