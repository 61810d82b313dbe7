//! Permutations.
ghost use Rattle.std.specs.Prelude.{◌≡◌, ◌≤◌, List, ℕ, length, MatchOption};
ghost use Rattle.realisations.specs.Standardisation.{inverse as inverse_of};
ghost use Rattle.permutation_words.specs.Sizes.{IsSmallPermutation};

use crate::letters::{holds_each_once, place};
use linear_combos::Code;
use std::marker::Model;

// The greatest size.
const MOST: usize = 12;

/// A permutation of at most 12 letters, by its values in order. No call of a permutation takes memory.
#[derive(Drop)]
pub struct Permutation {
    code: Code,
}

impl Model for Permutation {
    ghost use Rattle.std.specs.Prelude.{List, ℕ};
    ghost use Rattle.permutation_words.specs.Sizes.{IsSmallPermutation};

    ghost Value = { List ℕ };

    ghost view = { λ p. p.code };

    ghost invariant = { λ p. IsSmallPermutation p.code };
}

// The places of 1, 2, .. in a permutation, in order.
fn places(word: &Code) -> Code
    requires { IsSmallPermutation word.now }
    ensures { result ≡ inverse_of word.now }
{
    let mut places = Code::empty();
    for letter in 1..word.len() as u8 + 1 {
        places = places.with(place(letter, word));
    }
    places
}

impl Permutation {
    /// The permutation of these letters, or `None` exactly where they are none, or more than 12.
    pub fn new(letters: &[u8]) -> Option<Permutation>
        ensures { MatchOption result (IsSmallPermutation letters.now → ⊥) (λ p. (p ≡ letters.now) × IsSmallPermutation letters.now) }
    {
        let code = Code::new(letters)?;
        Permutation::of_code(code)
    }

    /// The permutation whose values are the letters of a code, or `None` exactly where these are no
    /// permutation, or more than 12.
    pub fn of_code(code: Code) -> Option<Permutation>
        ensures { MatchOption result (IsSmallPermutation code → ⊥) (λ p. (p ≡ code) × IsSmallPermutation code) }
    {
        if code.len() > MOST || !holds_each_once(&code) {
            return None;
        }
        Some(Permutation { code })
    }

    /// The values as a code.
    pub fn code(&self) -> &Code
        ensures value { result.now ≡ self.now }
        ensures small { IsSmallPermutation self.now }
    {
        &self.code
    }

    /// The inverse: the places of 1, 2, .. in order. Its cost grows with the square of the size.
    pub fn inverse(&self) -> Permutation
        ensures value { result ≡ inverse_of self.now }
        ensures small { IsSmallPermutation self.now }
    {
        Permutation {
            code: places(&self.code),
        }
    }
}
