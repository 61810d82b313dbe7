//! The packing of words.
ghost use Rattle.std.specs.Prelude.{◌≡◌, ◌≤◌, ◌&&◌, not, nat_le, length};
ghost use Rattle.linear_combos.specs.Codes.{IsCode};
ghost use Rattle.realisations.specs.IndexKinds.{is_packed};
ghost use Rattle.realisations.specs.Lists.{is_among};
ghost use Rattle.realisations.specs.Standardisation.{pack as packed, rank_in};

use linear_combos::Code;
use permutation_words::greatest_letter;

// Whether x is one of the letters.
fn among(x: u8, word: &Code) -> bool
    ensures { result ≡ is_among x word.now }
{
    for at in 0..word.len() {
        if word.letter(at) == x {
            return true;
        }
    }
    false
}

// Whether a letter is at most x, and is none of the later ones.
fn counts(x: u8, letter: u8, later: &Code) -> bool
    ensures { result ≡ (nat_le letter x && not (is_among letter later.now)) }
{
    letter <= x && !among(letter, later)
}

// How many distinct letters are at most x.
fn rank(x: u8, word: &Code) -> u8
    ensures value { result ≡ rank_in word.now x }
    ensures small { result ≤ length word.now }
    ensures is_code { IsCode word.now }
{
    let mut found = 0;
    for at in 0..word.len() {
        let later = word.suffix(at + 1);
        if counts(x, word.letter(at), &later) {
            found += 1;
        }
    }
    found
}

// Whether each number from 1 to the greatest letter stands in the word.
pub(crate) fn holds_each_number(word: &Code) -> bool
    ensures { result ≡ is_packed word.now }
{
    for number in 1..greatest_letter(word) + 1 {
        if !among(number, word) {
            return false;
        }
    }
    true
}

/// The packing of a word (Novelli, Thibon 2006): each letter becomes its rank among the distinct letters.
/// It takes no memory; its cost grows with the cube of the length.
pub fn pack(word: &Code) -> Code
    ensures { result ≡ packed word.now }
{
    let mut letters = Code::empty();
    for at in 0..word.len() {
        letters = letters.with(rank(word.letter(at), word));
    }
    letters
}
