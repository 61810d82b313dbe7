//! Shuffles of words.
ghost use Rattle.std.specs.Prelude.{◌≡◌, ◌+◌, ◌≤◌, length, IsTrue, IfOk};
ghost use Rattle.linear_combos.specs.Codes.{all_letters};
ghost use Rattle.realisations.specs.Words.{raise, shuffles as shuffles_of, shifted_shuffles};
ghost use Rattle.permutation_words.specs.Interleaving.{TakesLettersAt, put_in};

use crate::Permutation;
use hopf_num::OutOfMemory;
use itertools::Itertools;
use linear_combos::{Code, Codes};
use std::alloc::Global;

// The word in which the letters of the first word stand at these ascending places, one for each of
// them, and those of the second word at the others: from the first one on, each letter of the first
// word is put in at its place.
fn interleaved(a: &Code, b: &Code, places: &[usize]) -> Code
    requires { TakesLettersAt places.now a.now b.now }
    ensures { result ≡ put_in places.now a.now b.now }
{
    let mut word = *b;
    for (at, &place) in places.iter().enumerate() {
        let rest = word.suffix(place);
        word = word.prefix(place).with(a.letter(at)).followed_by(&rest);
    }
    word
}

// The code with each letter raised.
fn raised(by: u8, code: &Code) -> Code
    requires { IsTrue (all_letters (raise by code.now)) }
    ensures { result ≡ raise by code.now }
{
    let mut out = Code::empty();
    for at in 0..code.len() {
        out = out.with(by + code.letter(at));
    }
    out
}

/// The shuffles of two words (Eilenberg, Mac Lane 1953): their letters interleaved, each word as often
/// as it arises. For each list of places of the first word's letters, in lexicographic order, there is
/// the word that has these letters there, and those of the second word at the other places.
///
/// There are as many as the binomial coefficient of both lengths together over the first. The cost of
/// each is in proportion to the length of the first word, and its list of places takes memory while it
/// is made.
pub fn shuffles(alloc: Global, a: &Code, b: &Code) -> Result<Codes, OutOfMemory>
    requires { length a.now + length b.now ≤ 15 }
    ensures { IfOk result (λ codes. codes ≡ shuffles_of a.now b.now) }
{
    let mut codes = Codes::new(alloc);
    let all = a.len() + b.len();
    for places in (0..all).combinations(alloc, a.len())? {
        codes.push(interleaved(a, b, places?.as_slice()))?;
    }
    Ok(codes)
}

/// The shuffles of a permutation with a second one whose letters are raised by the size of the first,
/// in the order of `shuffles` (Malvenuto, Reutenauer 1995). The cost grows with their number.
pub fn shifted_shuffle(
    alloc: Global,
    a: &Permutation,
    b: &Permutation,
) -> Result<Codes, OutOfMemory>
    requires { length a.now + length b.now ≤ 12 }
    ensures { IfOk result (λ codes. codes ≡ shifted_shuffles a.now b.now) }
{
    let high = raised(a.code().len() as u8, b.code());
    shuffles(alloc, a.code(), &high)
}
