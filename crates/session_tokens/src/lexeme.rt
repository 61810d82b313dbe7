//! What each token of a statement stands for.
ghost use Rattle.std.specs.Prelude.{◌≡◌, ℕ, ◌≤◌, ◌↔◌, ◌^◌, min, length, IsTrue, IfOk};
ghost use Rattle.session_tokens.specs.Words.{name_of_map as spelling_of_map, word_of as word_of_lexeme, is_word};
ghost use Rattle.session_tokens.specs.Lexemes.{number_from, silent_words, is_among, has_point as has_a_point, pointed_lexeme as lexeme_with_point, plain_lexeme as lexeme_without_point, word_lexeme as lexeme_of_word, sign_lexeme as lexeme_of_sign, lexeme_of as lexeme_of_bytes};

use crate::{Kind, Name};
use basis_names::{BasisId, basis_name, basis_named};
use hopf_num::OutOfMemory;
use std::alloc::Global;

/// A linear function of the language, on a component. Its name is a reserved word.
#[derive(Clone, Copy, Debug, PartialEq, Eq)]
pub enum Linear {
    /// `coproduct`.
    Coproduct,
    /// `antipode`.
    Antipode,
    /// `counit`.
    Counit,
    /// `mult`, the product of a component and the next one.
    Mult,
    /// `commute`, the commuting image.
    Commute,
}

/// What a token stands for. Only a reserved word and a name own memory.
#[derive(Drop)]
pub enum Lexeme {
    /// A number below 2^127, or 2^127 for every greater one, all of which are refused.
    Number(u128),
    /// The name of a basis.
    Basis(BasisId),
    /// The name of a linear function.
    Linear(Linear),
    /// `pair`.
    Pair,
    /// `along`.
    Along,
    /// A reserved word that begins no operand: the name of an algebra, `expand`, `show` or `in`.
    Reserved(Name),
    /// Any other word without a point.
    Name(Name),
    /// `(`.
    Open,
    /// `)`.
    Close,
    /// `[`.
    LeftBracket,
    /// `]`.
    RightBracket,
    /// `,`.
    Comma,
    /// `+`.
    Plus,
    /// `-`.
    Minus,
    /// `*`.
    Times,
    /// `/`.
    Over,
    /// `#`.
    Hash,
    /// `:=`.
    Assign,
    /// `==`.
    Equals,
    /// What fits nowhere: a byte that is no token of the language, or a word with a point that names
    /// no basis.
    Other,
}

/// The least number that is too large to be read, 2^127.
pub const NUMBER_LIMIT: u128 = 1 << 127;

// The value of a run of digits, or the limit where it is more.
fn capped_number(digits: &[u8]) -> u128
    ensures { result ≡ min (number_from 0 digits.now) (2 ^ 127) }
{
    let mut value: u128 = 0;
    for digit in digits {
        value = value
            .saturating_mul(10)
            .saturating_add(digit.saturating_sub(b'0') as u128)
            .min(NUMBER_LIMIT);
    }
    value
}

fn is_silent_word(word: &[u8]) -> bool
    ensures { result ≡ is_among word.now silent_words }
{
    word == b"QSym".as_slice()
        || word == b"NCSF".as_slice()
        || word == b"FQSym".as_slice()
        || word == b"WQSym".as_slice()
        || word == b"FSym".as_slice()
        || word == b"PBT".as_slice()
        || word == b"expand".as_slice()
        || word == b"show".as_slice()
        || word == b"in".as_slice()
}

fn has_point(word: &[u8]) -> bool
    ensures { result ≡ has_a_point word.now }
{
    for byte in word {
        if *byte == b'.' {
            return true;
        }
    }
    false
}

// What a word with a point stands for.
fn pointed_lexeme(word: &[u8]) -> Lexeme
    ensures { result ≡ lexeme_with_point word.now }
{
    match basis_named(word) {
        Some(basis) => Lexeme::Basis(basis),
        None => Lexeme::Other,
    }
}

// What a word without a point stands for.
fn plain_lexeme(alloc: Global, word: &[u8]) -> Result<Lexeme, OutOfMemory>
    ensures { IfOk result (λ l. l ≡ lexeme_without_point word.now) }
{
    if word == b"coproduct".as_slice() {
        return Ok(Lexeme::Linear(Linear::Coproduct));
    }
    if word == b"antipode".as_slice() {
        return Ok(Lexeme::Linear(Linear::Antipode));
    }
    if word == b"counit".as_slice() {
        return Ok(Lexeme::Linear(Linear::Counit));
    }
    if word == b"mult".as_slice() {
        return Ok(Lexeme::Linear(Linear::Mult));
    }
    if word == b"commute".as_slice() {
        return Ok(Lexeme::Linear(Linear::Commute));
    }
    if word == b"pair".as_slice() {
        return Ok(Lexeme::Pair);
    }
    if word == b"along".as_slice() {
        return Ok(Lexeme::Along);
    }
    if is_silent_word(word) {
        return Ok(Lexeme::Reserved(Name::new(alloc, word)?));
    }
    Ok(Lexeme::Name(Name::new(alloc, word)?))
}

// What a sign stands for.
fn sign_lexeme(bytes: &[u8]) -> Lexeme
    ensures { result ≡ lexeme_of_sign bytes.now }
{
    match bytes {
        [] => Lexeme::Other,
        [b'('] => Lexeme::Open,
        [b')'] => Lexeme::Close,
        [b'['] => Lexeme::LeftBracket,
        [b']'] => Lexeme::RightBracket,
        [b','] => Lexeme::Comma,
        [b'+'] => Lexeme::Plus,
        [b'-'] => Lexeme::Minus,
        [b'*'] => Lexeme::Times,
        [b'/'] => Lexeme::Over,
        [_] => Lexeme::Hash,
        [b':', ..] => Lexeme::Assign,
        _ => Lexeme::Equals,
    }
}

/// What a token of a kind with these bytes stands for. Its time is linear in the number of bytes, and
/// a reserved word or a name takes memory for its own.
pub fn lexeme_of(alloc: Global, kind: Kind, bytes: &[u8]) -> Result<Lexeme, OutOfMemory>
    ensures { IfOk result (λ l. l ≡ lexeme_of_bytes kind bytes.now) }
{
    match kind {
        Kind::Number => Ok(Lexeme::Number(capped_number(bytes))),
        Kind::Word => if has_point(bytes) {
            Ok(pointed_lexeme(bytes))
        } else {
            plain_lexeme(alloc, bytes)
        },
        Kind::Sign => Ok(sign_lexeme(bytes)),
        Kind::Other | Kind::End => Ok(Lexeme::Other),
    }
}

// The spelling of a linear function.
fn name_of_map(map: Linear) -> &'static [u8]
    ensures { result.now ≡ spelling_of_map map }
{
    match map {
        Linear::Coproduct => b"coproduct",
        Linear::Antipode => b"antipode",
        Linear::Counit => b"counit",
        Linear::Mult => b"mult",
        Linear::Commute => b"commute",
    }
}

impl Lexeme {
    /// Whether it is a word: a name, a reserved word, or the name of a basis or a function.
    pub fn is_word(&self) -> bool
        ensures { result ≡ is_word self.now }
    {
        matches!(
            self,
            Lexeme::Name(_)
                | Lexeme::Reserved(_)
                | Lexeme::Basis(_)
                | Lexeme::Linear(_)
                | Lexeme::Pair
                | Lexeme::Along
        )
    }

    /// The spelling of a word, in memory of its own, or `None` exactly for a lexeme that is no word.
    pub fn word(&self, alloc: Global) -> Result<Option<Name>, OutOfMemory>
        ensures { IfOk result (λ word. word ≡ word_of_lexeme self.now) }
    {
        match self {
            Lexeme::Name(name) => Ok(Some(Name::new(alloc, name.as_slice())?)),
            Lexeme::Reserved(name) => Ok(Some(Name::new(alloc, name.as_slice())?)),
            Lexeme::Basis(basis) => Ok(Some(Name::new(alloc, basis_name(*basis))?)),
            Lexeme::Linear(map) => Ok(Some(Name::new(alloc, name_of_map(*map))?)),
            Lexeme::Pair => Ok(Some(Name::new(alloc, b"pair")?)),
            Lexeme::Along => Ok(Some(Name::new(alloc, b"along")?)),
            _ => Ok(None),
        }
    }

    /// The spelling of a word, or `None` exactly for a lexeme that is no word. A name and a reserved
    /// word hand on their own memory, so none is taken for them.
    pub fn into_word(self, alloc: Global) -> Result<Option<Name>, OutOfMemory>
        ensures { IfOk result (λ word. word ≡ word_of_lexeme self) }
    {
        match self {
            Lexeme::Name(name) | Lexeme::Reserved(name) => Ok(Some(name)),
            other => other.word(alloc),
        }
    }
}
