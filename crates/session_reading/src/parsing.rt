//! Reads a text as a statement.
ghost use Rattle.std.specs.Prelude.{◌≡◌, ◌≤◌, length, IfOk, MatchOption};
ghost use Rattle.session_reading.specs.Parses.{reserved_name as name_before_assign, IsFlawOfStatement, IsFlawless, Judges, fault_at, place_at as place_of, Parses};

use crate::GrammarFault;
use crate::depth::is_too_deep;
use crate::sights::Sights;
use hopf_num::OutOfMemory;
use session_grammar::{Parsed, Statement, statement_of};
use session_tokens::{Lexeme, Name, Token, lexemes_of, tokens};
use std::alloc::Global;

// What is refused in lexemes; places count from 0.
#[derive(Drop)]
enum Flaw {
    TooDeep,
    Syntax(usize),
    LargeNumber(usize),
    ReservedName(Name),
    NotBuilt,
    BadList(usize),
}

// The reserved word or the name of a basis before `:=`.
fn reserved_name(alloc: Global, lexemes: &[Lexeme]) -> Result<Option<Name>, OutOfMemory>
    ensures { IfOk result (λ name. name ≡ name_before_assign lexemes.now) }
{
    match lexemes {
        [Lexeme::Name(_), ..] => Ok(None),
        [word, Lexeme::Assign, ..] => word.word(alloc),
        _ => Ok(None),
    }
}

// What is refused first in a statement.
fn flaw_of_statement(alloc: Global, lexemes: &[Lexeme]) -> Result<Option<Flaw>, OutOfMemory>
    ensures { IfOk result (λ flaw. MatchOption flaw (IsFlawless lexemes.now) (λ f. IsFlawOfStatement lexemes.now f)) }
{
    let sights = Sights::of(lexemes);
    if let Some(place) = sights.large_number {
        return Ok(Some(Flaw::LargeNumber(place)));
    }
    if let Some(name) = reserved_name(alloc, lexemes)? {
        return Ok(Some(Flaw::ReservedName(name)));
    }
    if let Some(_) = sights.unbuilt {
        return Ok(Some(Flaw::NotBuilt));
    }
    if let Some(place) = sights.bad_list {
        return Ok(Some(Flaw::BadList(place + 1)));
    }
    Ok(None)
}

// The statement that the lexemes are, or what is refused first.
fn judge(alloc: Global, lexemes: Vec<Lexeme>) -> Result<Result<Statement, Flaw>, OutOfMemory>
    ensures { IfOk result (λ answer. Judges lexemes.items answer) }
{
    if is_too_deep(lexemes.as_slice()) {
        return Ok(Err(Flaw::TooDeep));
    }
    let flaw = flaw_of_statement(alloc, lexemes.as_slice())?;
    match statement_of(alloc, lexemes)? {
        Parsed::Stops(place) => Ok(Err(Flaw::Syntax(place))),
        Parsed::Read(statement) => match flaw {
            None => Ok(Ok(statement)),
            Some(flaw) => Ok(Err(flaw)),
        },
    }
}

// The place in the text of the token at a place of the list.
fn place_at(tokens: &[Token], place: usize) -> u32
    ensures { result ≡ place_of tokens.now place }
{
    match tokens.get(place) {
        None => 0,
        Some(token) => token.place,
    }
}

// The fault that tells of a flaw, with its place in the text.
fn fault_of(flaw: Flaw, tokens: &[Token]) -> GrammarFault
    ensures { result ≡ fault_at tokens.now flaw }
{
    match flaw {
        Flaw::TooDeep => GrammarFault::TooDeep,
        Flaw::Syntax(place) => GrammarFault::Syntax(place_at(tokens, place)),
        Flaw::LargeNumber(place) => GrammarFault::Number(place_at(tokens, place)),
        Flaw::ReservedName(name) => GrammarFault::ReservedName(name),
        Flaw::NotBuilt => GrammarFault::NotBuilt,
        Flaw::BadList(place) => GrammarFault::BadIndex(place_at(tokens, place)),
    }
}

/// The statement that a text of at most 65,536 bytes is.
///
/// What is refused first is told: more than 64 open brackets; tokens that are no statement, at the
/// first for which no statement begins with the tokens up to and with it; a number of 2^127 or more;
/// a reserved word before `:=`; a form that is not built yet; a list that spells no index of the
/// basis before it within the limit. The time is linear in the text.
pub fn parse(alloc: Global, text: &[u8]) -> Result<Statement, GrammarFault>
    requires { length text.now ≤ 65536 }
    ensures { Parses text.now result }
{
    let tokens = tokens(alloc, text)?;
    let lexemes = lexemes_of(alloc, text, tokens.as_slice())?;
    match judge(alloc, lexemes)? {
        Ok(statement) => Ok(statement),
        Err(flaw) => Err(fault_of(flaw, tokens.as_slice())),
    }
}
