//! Words: their standardisation, descents and evaluation.
ghost use Rattle.std.specs.Prelude.{◌≡◌, IsTrue};
ghost use Rattle.realisations.specs.Descents.{descent_composition as descents_of};
ghost use Rattle.realisations.specs.IndexKinds.{is_packed};
ghost use Rattle.realisations.specs.Standardisation.{standardise as standardised};
ghost use Rattle.permutation_words.specs.Evaluations.{evaluation as evaluated};

use crate::letters::{greatest_letter, number_of, standard_letter};
use linear_combos::Code;

/// The standardisation of a word (Schensted 1961): each letter becomes the number of smaller letters,
/// and of equal ones up to its own place. It takes no memory; its cost grows with the square of the
/// length.
pub fn standardise(word: &Code) -> Code
    ensures { result ≡ standardised word.now }
{
    let mut letters = Code::empty();
    for at in 0..word.len() {
        letters = letters.with(standard_letter(word, at));
    }
    letters
}

/// The descent composition of a word: the lengths of its longest factors without a descent, in order.
/// It takes no memory; its cost grows with the length.
pub fn descent_composition(word: &Code) -> Code
    ensures { result ≡ descents_of word.now }
{
    let mut parts = Code::empty();
    if word.len() == 0 {
        return parts;
    }
    let mut part = 1;
    for at in 1..word.len() {
        if word.letter(at) < word.letter(at - 1) {
            parts = parts.with(part);
            part = 1;
        } else {
            part += 1;
        }
    }
    parts.with(part)
}

/// The evaluation of a packed word: how often each of 1 to its greatest letter stands in it, in order.
/// It takes no memory; its cost grows with the square of the length.
pub fn evaluation(word: &Code) -> Code
    requires { IsTrue (is_packed word.now) }
    ensures { result ≡ evaluated word.now }
{
    let mut counts = Code::empty();
    for letter in 1..greatest_letter(word) + 1 {
        counts = counts.with(number_of(letter, word));
    }
    counts
}
