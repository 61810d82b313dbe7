//! Words that represent compositions, and complements.
ghost use Rattle.std.specs.Prelude.{◌≡◌, ◌++◌, replicate};
ghost use Rattle.compositions.specs.Sizes.{IsSmallComposition};
ghost use Rattle.linear_combos.specs.Codes.{IsCode};
ghost use Rattle.realisations.specs.Descents.{complement as complement_of, word_of_composition as word_with_descents};

use compositions::Composition;
use linear_combos::Code;

// A word with one letter behind it so many times.
fn with_repeated(word: &Code, letter: u8, count: u8) -> Code
    requires { IsCode (word.now ++ replicate count letter) }
    ensures { result ≡ word.now ++ replicate count letter }
{
    let mut longer = *word;
    for _ in 0..count {
        longer = longer.with(letter);
    }
    longer
}

// The word of r parts that has as many letters r as the first part, then as many letters r - 1 as the second, and so
// on down to 1.
pub(crate) fn word_of_composition(parts: &Code) -> Code
    requires { IsSmallComposition parts.now }
    ensures { result ≡ word_with_descents parts.now }
{
    let mut word = Code::empty();
    for at in 0..parts.len() {
        word = with_repeated(&word, (parts.len() - at) as u8, parts.letter(at));
    }
    word
}

// The composition whose descents are the places outside those of a composition.
pub(crate) fn complement(composition: &Composition) -> Composition
    ensures { result ≡ complement_of composition.now }
{
    let conjugate = composition.conjugate();
    conjugate.reverse()
}
