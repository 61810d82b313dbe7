//! How often letters stand in a word, and where; and room between them.
ghost use Rattle.std.specs.Prelude.{◌≡◌, ◌<◌, ◌≤◌, length, slice_index};
ghost use Rattle.linear_combos.specs.Codes.{IsCode};
ghost use Rattle.realisations.specs.IndexKinds.{is_permutation};
ghost use Rattle.realisations.specs.Standardisation.{count_below, count_same, place_of, standardise};
ghost use Rattle.realisations.specs.Words.{greatest};
ghost use Rattle.word_laws.specs.Spreads.{raised_past, raise_past};

use linear_combos::Code;

// How many letters are smaller than x.
fn number_below(x: u8, word: &Code) -> u8
    ensures value { result ≡ count_below x word.now }
    ensures small { result ≤ length word.now }
    ensures is_code { IsCode word.now }
{
    let mut found = 0;
    for at in 0..word.len() {
        if word.letter(at) < x {
            found += 1;
        }
    }
    found
}

// How many letters are equal to x.
pub(crate) fn number_of(x: u8, word: &Code) -> u8
    ensures value { result ≡ count_same x word.now }
    ensures small { result ≤ length word.now }
    ensures is_code { IsCode word.now }
{
    let mut found = 0;
    for at in 0..word.len() {
        if word.letter(at) == x {
            found += 1;
        }
    }
    found
}

/// The greatest letter, 0 for the empty word. It takes no memory; its cost grows with the length.
pub fn greatest_letter(word: &Code) -> u8
    ensures value { result ≡ greatest word.now }
    ensures small { result ≤ 15 }
    ensures is_code { IsCode word.now }
{
    let mut most = 0;
    for at in 0..word.len() {
        if word.letter(at) > most {
            most = word.letter(at);
        }
    }
    most
}

// The place of x, counted from 1; the length where there is none.
pub(crate) fn place(x: u8, word: &Code) -> u8
    ensures { result ≡ place_of x word.now }
{
    for at in 0..word.len() {
        if word.letter(at) == x {
            return at as u8 + 1;
        }
    }
    word.len() as u8
}

// The letter of the standardisation at a place: the number of smaller letters, and of equal ones up
// to this place.
pub(crate) fn standard_letter(word: &Code, at: usize) -> u8
    requires { at < length word.now }
    ensures { result ≡ slice_index (standardise word.now) at }
{
    let letter = word.letter(at);
    let front = word.prefix(at);
    1 + number_below(letter, word) + number_of(letter, &front)
}

// Whether each number from 1 to the length stands in the word once.
pub(crate) fn holds_each_once(word: &Code) -> bool
    ensures { result ≡ is_permutation word.now }
{
    for number in 1..word.len() as u8 + 1 {
        if number_of(number, word) != 1 {
            return false;
        }
    }
    true
}

// A letter, 1 more where it is past n.
fn letter_past(n: u8, letter: u8) -> u8
    requires { letter ≤ 15 }
    ensures { result ≡ raised_past n letter }
{
    if letter > n {
        return letter + 1;
    }
    letter
}

/// The word with each letter past n raised by 1, which has to be a code. It takes no memory; its cost
/// grows with the length.
pub fn raise_letters_past(n: u8, word: &Code) -> Code
    requires { IsCode (raise_past n word.now) }
    ensures { result ≡ raise_past n word.now }
{
    let mut raised = Code::empty();
    for at in 0..word.len() {
        raised = raised.with(letter_past(n, word.letter(at)));
    }
    raised
}
