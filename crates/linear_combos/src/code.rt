//! Codes: the lists of letters that stand for indices of bases, each in one machine word.
ghost use Rattle.std.specs.Prelude.{◌≡◌, ◌+◌, ◌<◌, ◌≤◌, List, ℕ, [], ◌∷◌, ◌++◌, length, take, drop, MatchOption, Some, slice_index, refl, nat_eq, sum};
ghost use Rattle.std.specs.Ordering.{nat_cmp};
ghost use Rattle.std.specs.Cmp.{partial_equiv_from_equiv};
ghost use Rattle.std.specs.Cmp.Lexicographic.{pointwise, slice_cmp, nat_list_eq_equiv, nat_list_cmp_total, texts_po, texts_ties};
ghost use Rattle.linear_combos.specs.Codes.{IsCode, all_letters};
ghost use Rattle.linear_combos.specs.Packing.{word_of};

use smallvec::SmallVec;
use std::alloc::Global;
use std::cmp::Ordering;
use std::marker::Model;

// The most letters of a code, and the greatest letter.
const MOST: usize = 15;

/// A list of at most 15 letters from 1 to 15, in one machine word.
///
/// Its order is the canonical one: letter by letter, smaller letters first, a proper prefix before
/// the longer code. The word has sixteen places of four bits. The letters are in the first ones, from
/// the highest on, and 0 is in each place behind them; so the order of the words is that of the codes.
/// No call of a code takes memory.
#[derive(Clone, Copy, Debug)]
pub struct Code {
    word: u64,
}

impl Model for Code {
    ghost use Rattle.std.specs.Prelude.{◌≡◌, List, ℕ};
    ghost use Rattle.std.proofs.Common.{ap};
    ghost use Rattle.linear_combos.specs.Packing.{letters_in, word_of, HoldsCode};

    ghost Value = { List ℕ };

    ghost view = { λ c. letters_in c.word };

    ghost invariant = { λ c. HoldsCode c.word };

    ghost inverse = { λ xs. record { word = word_of xs } };

    ghost inverse_ok = { λ a h. ap (λ w. record { word = w }) h.whole };
}

// Whether each letter is from 1 to 15.
fn are_letters(letters: &[u8]) -> bool
    ensures { result ≡ all_letters letters.now }
{
    letters.iter().all(|letter| 1 <= *letter && *letter <= 15)
}

// The word of these letters.
fn packed(letters: &[u8]) -> u64
    requires { IsCode letters.now }
    ensures { result ≡ word_of letters.now }
{
    let mut word = 0;
    for (at, letter) in letters.iter().enumerate() {
        word += u64::from(*letter) << (60 - 4 * at);
    }
    word
}

// The code of these letters, which are at most 15 and each from 1 to 15.
fn holding(letters: &[u8]) -> Code
    requires { IsCode letters.now }
    ensures { result ≡ letters.now }
{
    let word = packed(letters);
    Code { word }
}

impl Code {
    /// The code of these letters, or `None` exactly where there are more than 15 or one of them is
    /// not from 1 to 15.
    pub fn new(letters: &[u8]) -> Option<Code>
        ensures { MatchOption result (IsCode letters.now → ⊥) (λ code. (code ≡ letters.now) × IsCode letters.now) }
    {
        if letters.len() > MOST || !are_letters(letters) {
            return None;
        }
        Some(holding(letters))
    }

    /// The code with no letter: that of every empty index.
    pub fn empty() -> Code
        ensures { result ≡ [] }
    {
        Code { word: 0 }
    }

    /// How many letters there are: as many as there are places before the zeros at the end.
    pub fn len(&self) -> usize
        ensures value { result ≡ length self.now }
        ensures is_code { IsCode self.now }
    {
        (16 - self.word.trailing_zeros() / 4) as usize
    }

    /// The letter at a place, counted from 0.
    pub fn letter(&self, at: usize) -> u8
        requires { at < length self.now }
        ensures { result ≡ slice_index self.now at }
    {
        ((self.word >> (60 - 4 * at)) % 16) as u8
    }

    /// The sum of the letters, at most 225.
    pub fn sum(&self) -> u32
        ensures value { result ≡ sum self.now }
        ensures is_code { IsCode self.now }
    {
        let mut total = 0;
        for at in 0..self.len() {
            total += u32::from(self.letter(at));
        }
        total
    }

    // The letters in an array, and how many there are.
    fn unpacked(&self) -> ([u8; 15], usize)
        ensures letters { take result.1 result.0 ≡ self.now }
        ensures len { result.1 ≡ length self.now }
        ensures is_code { IsCode self.now }
    {
        let mut letters = [0; 15];
        let len = self.len();
        for at in 0..len {
            letters[at] = self.letter(at);
        }
        (letters, len)
    }

    /// The letters, unpacked into fifteen places, for rules that edit them one by one. It takes no
    /// memory.
    pub fn letters(&self, alloc: Global) -> SmallVec<u8, 15>
        ensures { result.items ≡ self.now }
    {
        let (letters, len) = self.unpacked();
        SmallVec::from_slice(alloc, &letters[..len]).unwrap()
    }

    /// The code with one letter more behind the others.
    pub fn with(&self, letter: u8) -> Code
        requires { IsCode (self.now ++ letter ∷ []) }
        ensures { result ≡ self.now ++ letter ∷ [] }
    {
        let len = self.len();
        let word = self.word + (u64::from(letter) << (60 - 4 * len));
        Code { word }
    }

    /// The code followed by the letters of another one, which make a code with it.
    pub fn followed_by(&self, other: &Code) -> Code
        requires { IsCode (self.now ++ other.now) }
        ensures { result ≡ self.now ++ other.now }
    {
        let len = self.len();
        let word = self.word + (other.word >> (4 * len));
        Code { word }
    }

    /// The first letters of the code, as many as are asked for.
    pub fn prefix(&self, len: usize) -> Code
        requires { len ≤ length self.now }
        ensures { result ≡ take len self.now }
    {
        let rest = self.suffix(len);
        let word = self.word - (rest.word >> (4 * len));
        Code { word }
    }

    /// The letters of the code behind the first ones.
    pub fn suffix(&self, from: usize) -> Code
        requires { from ≤ length self.now }
        ensures { result ≡ drop from self.now }
    {
        let word = self.word << (4 * from);
        Code { word }
    }
}

impl PartialEq for Code {
    ghost eq = { λ a b. pointwise nat_eq a b };

    ghost laws = { partial_equiv_from_equiv nat_list_eq_equiv };

    fn eq(&self, other: &Code) -> bool {
        self.word == other.word
    }
}

impl Eq for Code {
    ghost laws = { nat_list_eq_equiv };
}

impl PartialOrd for Code {
    ghost partial_cmp = { λ a b. Some (slice_cmp nat_cmp a b) };

    ghost laws = { texts_po };

    fn partial_cmp(&self, other: &Code) -> Option<Ordering> {
        Some(self.cmp(other))
    }
}

impl Ord for Code {
    ghost cmp = { λ a b. slice_cmp nat_cmp a b };

    ghost total = { nat_list_cmp_total };

    ghost matches_partial_cmp = { λ a b. refl };

    ghost matches_eq = { texts_ties };

    fn cmp(&self, other: &Code) -> Ordering {
        self.word.cmp(&other.word)
    }
}
